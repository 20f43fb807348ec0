//! The texts of the help.
//!
//! A `.._USAGE` is the usage that the parser would print in the help, wrapped at 80 columns.

pub(crate) const ABOUT: &str = "\
kmipctl makes sure that the symmetric keys in a plan exist on a KMIP 2.1 server;
the server generates the key material, which kmipctl never sees. A plan lists
keys, and says how far each goes: created, active, revoked, destroyed or
discarded. No key is created twice or destroyed too early, even if replies are
lost.";

pub(crate) const AFTER_HELP: &str = "\
First steps, with a test server in the same process:
  kmipctl check --plan plan.toml
  kmipctl run --plan plan.toml --progress plan.progress --loopback

`kmipctl COMMAND --help` describes a command, and `kmipctl COMMAND -h` lists its
options. The man pages have the details: kmipctl-run(1), kmip-plan(5) and so on.

Results and usage errors go to standard output. Standard error explains failures
and shows what `run` is doing. Without a command, kmipctl runs `answer`.

Environment: a variable that is not empty replaces a missing option:
  KMIPCTL_PLAN      --plan
  KMIPCTL_PROGRESS  --progress, but not with --loopback
  KMIPCTL_CONNECT   --connect, if no option names the server
  KMIPCTL_SOCKET    --socket, in the same case; setting both is an error

Exit status:
  0  success: nothing was refused, and all keys are finished
  1  something was refused, failed or is not finished
  2  the command line is wrong";

pub(crate) const ANSWER: &str = "Answer requests: one line of hexadecimal digits each";

pub(crate) const ANSWER_LONG: &str = "\
Answer each request on standard input with a reply on standard output. A test
server in memory answers them, in order. It starts without objects. Requests and
replies are lines of hexadecimal digits.

A line that is too long or not hexadecimal prints `refused: length` or
`refused: hex`, and `answer` goes on.

Examples:
  kmipctl answer < requests.hex
  kmipctl answer --stream < stream.hex

Exit status:
  0  every request was answered
  1  a line was refused, or reading or writing failed
  2  the command line is wrong";

pub(crate) const STREAM: &str = "Read the lines as pieces of one stream of requests";

pub(crate) const SHOW: &str = "Show messages as text: one line of hexadecimal digits each";

pub(crate) const SHOW_LONG: &str = "\
Show the KMIP message, or part of a message, that is in each line of standard
input in hexadecimal. Each item is printed with its tag, type and value. The
items in a Structure follow it, indented by two spaces:
  $ echo 42002002000000040000000800000000 | kmipctl show
  420020 Integer 8

Examples:
  kmipctl show < messages.hex
  kmipctl answer < requests.hex | kmipctl show

Exit status:
  0  every line was shown
  1  a line was refused, or reading or writing failed
  2  the command line is wrong";

pub(crate) const CHECK: &str = "Check a plan, and print the steps that each key needs";

pub(crate) const CHECK_LONG: &str = "\
Check a plan, and print the steps that each key needs. No server is contacted.

A plan is a TOML file with 1 to 1,000 keys:
  [[key]]
  name = \"k1\"          # unique; 1 to 64 printable ASCII characters, no space
  algorithm = \"AES\"    # or \"HMAC-SHA256\"
  length = 256         # in bits; for AES also 128 and 192
  usage = [\"encrypt\", \"decrypt\"]
  target = \"active\"

  usage   sign, verify, encrypt, decrypt, wrap-key, unwrap-key, mac-generate,
          mac-verify
  target  created, active, revoked, destroyed, discarded
  reason  optional, if the target is revoked or destroyed: unspecified,
          affiliation-changed, superseded, cessation-of-operation,
          privilege-withdrawn

For each key `check` prints the name, the algorithm, the length, the usage mask
in hexadecimal, the target and the steps. With --after a last line says whether
the plan prolongs an earlier one, so that it can use the same progress file:
  k1 AES 256 0000000c active: Create Activate
  prolongs

Examples:
  kmipctl check --plan plan.toml
  kmipctl check --plan new.toml --after plan.toml
  kmipctl check --json-schema > plan.schema.json

Exit status:
  0  the plan is correct and, with --after, prolongs the earlier plan
  1  a plan is wrong or cannot be read, or the plan does not prolong the other
  2  the command line is wrong";

pub(crate) const SIM: &str = "Play a plan in memory, over a network that follows a script";

pub(crate) const SIM_LONG: &str = "\
Play a plan in memory, against a test server and over a network that follows a
script. It shows what a run does if messages are lost, late or repeated, or if
the machine crashes. Nothing is sent, and no file is written.

A script has one word per line. Each of these is for one exchange:
  pass          deliver the request and the reply
  lose-request  lose the request
  lose-reply    deliver the request, lose the reply
  cut N         deliver only the first N bytes of the request
  stale N       lose the request, and deliver the reply of number N instead
The other words end a run or repeat a request: save, restart N, restart none,
crash N LEFT, prolong, again N. See kmipctl-sim(1).

`sim` prints each run with its report, the requests and the server's objects:
  run 1 AllFinished 3
  k1 active 2/2 finished
  finished 1 of 1
  ask 1 Locate k1
  ask 2 Create k1
  ask 3 Activate k1
  record 1 k1 Active

Examples:
  kmipctl sim --plan plan.toml --script network.script
  kmipctl sim --plan plan.toml --script network.script --diagram > run.mmd
  kmipctl sim --plan plan.toml --then next.toml --script network.script

Exit status:
  0  the last run finished all keys
  1  it did not, the plan or the script is wrong, or something failed
  2  the command line is wrong";

pub(crate) const SIM_USAGE: &str = "kmipctl sim [OPTIONS] --plan <PATH> --script <PATH>";

pub(crate) const PLAN: &str = "Plan file; - for standard input [env: KMIPCTL_PLAN]";

pub(crate) const SCRIPT: &str = "Script of the network, one word per line";

pub(crate) const THEN: &str = "Plan that takes over at `prolong`; - for standard input";

pub(crate) const TRACE: &str = "First print each exchange, late request and end of a run";

pub(crate) const DIAGRAM: &str = "Print only a Mermaid sequence diagram";

pub(crate) const AFTER: &str = "Earlier plan to compare with; - for standard input";

pub(crate) const CANON: &str = "Print each item in its canonical form, in hexadecimal";

pub(crate) const RUN: &str = "Carry out a plan on a server, and save the progress in a file";

pub(crate) const RUN_LONG: &str = "\
Carry out a plan on a server: create, activate, revoke or destroy each key until
it has reached its target. If a reply is lost, the run checks the key on the
server before it sends another request for it. So no key is created twice.

Name a progress file, one for each plan and server. The run saves what it knows
there after each exchange, and the next run goes on from it, even if the first
one was killed. If the file is lost, the next run searches for each key first.

A run trusts the progress file. If the file says that all keys are finished, the
server is not asked. With --refresh the run first checks the file against the
server, with questions that change nothing. Use it for unattended runs.

The server is reached over TCP (--connect) or a Unix socket (--socket). kmipctl
does not speak TLS: connect it to a tunnel on this machine, such as stunnel.

At the end the run prints the status of each key, how many keys are finished,
why it stopped, and how many exchanges it made:
  k1 active 2/2 finished
  finished 1 of 1
  stop AllFinished 3

Examples:
  kmipctl run --plan plan.toml --progress rehearsal.progress --loopback
  kmipctl run --plan plan.toml --progress plan.progress --connect 192.0.2.7:5696
  kmipctl run --plan plan.toml --progress plan.progress --refresh \\
    --socket /run/kmipctl/server.socket --lock-wait 600

Exit status:
  0  all keys are finished; with --refresh, this server reported each key at its
     target
  1  a key is not finished, or something was refused or failed
  2  the command line is wrong";

pub(crate) const RUN_USAGE: &str = "\
kmipctl run [OPTIONS] --plan <PATH> --progress <PATH>
       <--connect <ADDRESS>|--socket <PATH>|--loopback>";

pub(crate) const LIST: &str = "Show the status of each key by the progress file alone";

pub(crate) const LIST_LONG: &str = "\
Show the status of each key of a plan by the progress file alone. No server is
asked, and a run may be in progress. Use `look` to ask the server.

A line has the name, the target, how many of the steps are known to be done,
`finished` or `working`, and the key's identifier on the server (- if unknown):
  database-2026 active 2/2 finished 17
  backup-seal active 0/2 working -
  finished 1 of 2
Standard error says which server the file belongs to.

Examples:
  kmipctl list --plan plan.toml --progress plan.progress
  kmipctl list --plan plan.toml --progress plan.progress --json

Exit status:
  0  the list was printed, even if no key is finished
  1  the plan or the progress file was refused, or something failed
  2  the command line is wrong";

pub(crate) const PROBE: &str = "Check whether a server meets the requirements of `run`";

pub(crate) const PROBE_LONG: &str = "\
Check whether a server meets the requirements of `run`. Probe before the first
plan on a new kind of server, and after a change of the server's software.

The probe creates two keys of its own, PREFIX-1 and PREFIX-2, takes each step
twice, and destroys both. The destroyed objects stay on the server, so use a new
prefix each time. If one of the names is in use already, nothing is created.
kmipctl does not speak TLS: connect it to a tunnel on this machine.

It prints a line for each requirement, then what may go wrong, and a conclusion:
  making two keys: probe-2026-1 and probe-2026-2
  names are unique: yes
  names stay used after Destroy: no (a second object 3 was made)
  ..
  the promise does not hold here

Examples:
  kmipctl probe --name-prefix probe-2026 --connect 192.0.2.7:5696
  kmipctl probe --name-prefix probe-2026 --loopback

Exit status:
  0  every requirement is met
  1  a requirement is not met or could not be checked, or something failed
  2  the command line is wrong";

pub(crate) const PROBE_USAGE: &str = "\
kmipctl probe [OPTIONS] --name-prefix <PREFIX>
       <--connect <ADDRESS>|--socket <PATH>|--loopback>";

pub(crate) const LOOK: &str = "Show the status of each key on a server, and change nothing";

pub(crate) const LOOK_LONG: &str = "\
Show the status of each key of a plan on a server. Nothing is changed and no
progress is saved, so use it at any time, even during a run. kmipctl does not
speak TLS: connect it to a tunnel on this machine.

It prints the key's name, its target, the identifier and state of its object,
and whether it is finished, what is to do, or why it is in conflict:
  k1 active 17 Active finished
  k2 revoked 18 Active to do: Revoke
  k3 active - none to do: Create Activate
  k4 created 22 PreActive conflict attributes: AES 128 encrypt decrypt
  finished 1 of 4
If no reply comes, the line has `not told: no reply`.

Examples:
  kmipctl look --plan plan.toml --connect 192.0.2.7:5696
  kmipctl look --plan plan.toml --socket /run/kmipctl/server.socket --batch 8

Exit status:
  0  each key is finished
  1  a key is not finished or its status is not known, or something failed
  2  the command line is wrong";

pub(crate) const LOOK_USAGE: &str = "\
kmipctl look [OPTIONS] --plan <PATH>
       <--connect <ADDRESS>|--socket <PATH>|--loopback>";

pub(crate) const LOOK_GIVE_UP: &str = "Silence limit, 0 to 86400, 0 for none";

pub(crate) const NAME_PREFIX: &str = "Prefix of both names, 1 to 62 printable characters";

pub(crate) const SERVE: &str = "Run a test server on this machine, with its keys in memory";

pub(crate) const SERVE_LONG: &str = "\
Run a test server on 127.0.0.1, with its keys in memory. It is for tests: it has
no access control, and forgets everything when it ends.

It prints `listening PORT`, serves N connections, and ends.

Examples:
  kmipctl serve --port 5696 --connections 100
  kmipctl serve --port 0 --connections 100 --at-once 8 --verbose

Exit status:
  0  all connections were served
  1  the port is not free, or something failed
  2  the command line is wrong";

pub(crate) const SERVE_USAGE: &str = "kmipctl serve [OPTIONS] --port <PORT> --connections <N>";

pub(crate) const COMPLETIONS: &str = "Print a script that lets a shell complete command lines";

pub(crate) const COMPLETIONS_LONG: &str = "\
Print a script that lets a shell complete the command lines of kmipctl. `make
install` and the packages install it for all three shells. The examples are for
the shell that is open; kmipctl-completions(1) has the files for later shells.

Examples:
  source <(kmipctl completions bash)    # needs the package bash-completion
  source <(kmipctl completions zsh)     # after compinit
  kmipctl completions fish | source

Exit status:
  0  the script was printed
  1  printing failed
  2  the command line is wrong";

pub(crate) const SHELL: &str = "Shell that the script is for";

pub(crate) const PROGRESS: &str = "Progress file [env: KMIPCTL_PROGRESS]";

pub(crate) const REFRESH: &str = "First check the progress file against the server";

pub(crate) const BELIEVE: &str = "Use a file of another address; implies --refresh";

pub(crate) const AFRESH: &str = "Start over; save the progress file as PATH.before";

pub(crate) const CONNECT: &str = "Server's IPv4 address:port [env: KMIPCTL_CONNECT]";

pub(crate) const SOCKET: &str = "Unix socket of the server [env: KMIPCTL_SOCKET]";

pub(crate) const LOOPBACK: &str = "Use a new test server in this process";

pub(crate) const LIMIT: &str = "Maximum exchanges, 0 to 4294967295";

pub(crate) const BATCH: &str = "Maximum keys per message, 1 to 8";

pub(crate) const TIMEOUT: &str = "Time limit per exchange, 1 to 3600";

pub(crate) const WAIT: &str = "Initial retry delay, 0 to 60000";

pub(crate) const GIVE_UP: &str = "Stall limit, 0 to 86400, 0 for none";

pub(crate) const LOCK_WAIT: &str = "Wait for another run, 0 to 86400";

pub(crate) const VERBOSE: &str = "Print each exchange on standard error";

pub(crate) const IDENTIFIERS: &str = "Also print each key's identifier, as `list` does";

pub(crate) const METRICS: &str = "Write metrics for Prometheus to this file";

pub(crate) const LOOK_METRICS: &str = "Write the keys' states for Prometheus to this file";

pub(crate) const JSON: &str = "Print one JSON object per line";

pub(crate) const JSON_SCHEMA: &str = "Print only a JSON Schema of plans, for editors";

pub(crate) const PORT: &str = "Port, 0 to 65535; 0 lets the system choose one";

pub(crate) const CONNECTIONS: &str = "Number of connections to serve, 0 to 4294967295";

pub(crate) const AT_ONCE: &str = "Maximum open connections, 1 to 64";

pub(crate) const NOW: &str = "Unix time in the replies, 0 to 2^63-1";

pub(crate) const SERVE_TIMEOUT: &str = "Time limit per read or write, 1 to 3600";

pub(crate) const WRONG_ADDRESS: &str =
    "the value of '--connect <ADDRESS>' is not an IPv4 address and a port, such as 127.0.0.1:5696";

pub(crate) const WRONG_PREFIX: &str =
    "the value of '--name-prefix <PREFIX>' is not 1 to 62 printable ASCII characters without a space";
