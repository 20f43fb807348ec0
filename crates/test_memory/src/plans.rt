//! Plans of keys, AES with 256 bits, to encrypt and decrypt.

/// The one key `k1` is to be active.
pub(crate) const ACTIVE: &str = "\
    [[key]]\n\
    name = \"k1\"\n\
    algorithm = \"AES\"\n\
    length = 256\n\
    usage = [\"encrypt\", \"decrypt\"]\n\
    target = \"active\"\n";

/// The one key `k1` is to be destroyed, after it was active.
pub(crate) const DESTROYED: &str = "\
    [[key]]\n\
    name = \"k1\"\n\
    algorithm = \"AES\"\n\
    length = 256\n\
    usage = [\"encrypt\", \"decrypt\"]\n\
    target = \"destroyed\"\n";

/// `a` and `b` are to be active.
pub(crate) const PAIR: &str = "\
    [[key]]\n\
    name = \"a\"\n\
    algorithm = \"AES\"\n\
    length = 256\n\
    usage = [\"encrypt\", \"decrypt\"]\n\
    target = \"active\"\n\
    [[key]]\n\
    name = \"b\"\n\
    algorithm = \"AES\"\n\
    length = 256\n\
    usage = [\"encrypt\", \"decrypt\"]\n\
    target = \"active\"\n";
