//! What holds of bytes, of streams and of framers, each as the contract of a function that does nothing.
ghost use Rattle.std.specs.Prelude.{◌≤◌, length};
ghost use Rattle.kmip_frames.specs.Framing.{IsHeld};
ghost use Rattle.kmip_ttlv.specs.Limits.{most_bytes};
ghost use Rattle.kmip_frames.specs.Laws.{
  StreamsAreOneWay,
  FaultsStay,
  CallsHandTheStream,
  CallsAgree,
  PiecesJoin,
  ShortBytesLackAHead,
  SizesAreBounded,
  FaultsNeedNoMore,
  MessagesAreWhole,
  MoreChangesNothing,
};

use crate::framer::Framer;

/// What holds of any stream.
pub fn the_laws_of_streams_hold()
    // Bytes are messages and a rest in one way only.
    ensures one_way { StreamsAreOneWay }
    // Bytes that begin with a bad head go on doing so whatever follows, and no message begins there.
    ensures fault { FaultsStay }
{}

/// What holds of a framer's calls, whatever pieces are fed and whenever `next` is called.
pub fn the_laws_of_framers_hold()
    // Once no whole message waits, the messages handed over are those of the stream.
    ensures stream { CallsHandTheStream }
    // So however the same bytes are cut, the same messages are handed over and the same bytes are left.
    ensures same { CallsAgree }
    // To feed two pieces joined is to feed the first, and then what is left of it with the second. The
    // first is one that is not refused.
    ensures pieces { PiecesJoin }
{}

/// How many bytes are needed by the message at the front of some bytes, and why they have no message.
pub fn the_laws_of_sizes_hold()
    // Bytes that are less than a head have no fault, and what they need is a head.
    ensures short { ShortBytesLackAHead }
    // What is needed is a head at least, and 8,192 bytes at most.
    ensures bounds { SizesAreBounded }
    // A fault is that of a whole head. Then no more than the head is needed, and no message begins there.
    ensures fault { FaultsNeedNoMore }
    // Bytes are a message just where they have no fault and are as many as are needed.
    ensures message { MessagesAreWhole }
    // Once a head is whole, more bytes change neither its fault nor what is needed.
    ensures more { MoreChangesNothing }
{}

/// A framer holds less than a head, a part of one message, or a whole one. It does nothing.
pub fn a_framer_holds_one_message(framer: &Framer)
    // It holds at most 8,192 bytes.
    ensures at_most { length framer.now ≤ most_bytes }
    // Until a fault of `feed` these are a front of one message, or the whole. After it they are the head.
    ensures held { IsHeld framer.now }
{
    framer.pending(); // proof
}
