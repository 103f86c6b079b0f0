ghost use Rattle.http_in.specs.Laws.{FewReads, FrontIsNone, LongEnough, LongestMessage, MessagesAreOne, MessagesStand, NextIsRead, NoneBefore, NoneBeginsAnother, NoneIsFront, OneReading, PathsAreShort, PiecesGoOn, UnreadIsNothing};

/// A message stands whatever follows it, it is one message by itself, none begins another, and none has more than
/// 1,064,960 bytes. What is no message yet is the front of one, and the front of a message is none.
pub fn one_message_alone()
    ensures stand { MessagesStand }
    ensures one { MessagesAreOne }
    ensures none_begins { NoneBeginsAnother }
    ensures long { LongEnough }
    ensures longest { LongestMessage }
    ensures front { NoneIsFront }
    ensures none_yet { FrontIsNone }
{}

/// However a stream is cut into pieces, its messages and what is left of it are the same.
pub fn any_cutting()
    ensures pieces { PiecesGoOn }
    ensures next { NextIsRead }
    ensures one { OneReading }
{}

/// A server that reads from a connection until there is a message or the connection ends needs fewer than 1,064,960
/// reads. What it has not read then changes nothing, and a connection that ended before began with no message.
pub fn one_connection()
    ensures reads { FewReads }
    ensures unread { UnreadIsNothing }
    ensures before { NoneBefore }
{}

/// The path of a whole message, as a text with a slash before each segment, has at most 8,192 bytes.
pub fn paths_are_short()
    ensures { PathsAreShort }
{}
