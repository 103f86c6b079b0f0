ghost use Rattle.std.specs.Prelude.{◌≡◌, ◌≢◌, ◌<◌, ◌≤◌, ◌++◌, ◌+◌, ◌-◌, [], Some, None, length, take, drop, IfOk, OnOk, OnErr, IfSome, IfNone, vec_capacity};
ghost use Rattle.http_in.specs.Messages.{asked, most_message};
ghost use Rattle.http_in.specs.Inside.{Keeps};
ghost use Rattle.http_in.specs.Streams.{Stream};

use crate::Message;
use crate::limits::MOST_HEAD;
use crate::look::{Looked, look};
use std::alloc::Global;
use std::marker::Model;
use std::mem::replace;
use zbase::Memory;

/// Takes so many bytes away from the front.
fn drop_front(bytes: &mut Vec<u8>, count: usize)
    requires { count ≤ length bytes.old.items }
    ensures { bytes.new.items ≡ drop count bytes.old.items }
{
    let left = bytes.len() - count;
    bytes.as_mut_slice().copy_within(count.., 0);
    bytes.truncate(left);
}

/// For how many bytes there is room at least where one comes alone: others follow it.
const ROOM_FOR_BYTES: usize = 1024;

/// Adds a piece at the end. One byte alone is pushed, which takes less time than a copy.
fn append(bytes: &mut Vec<u8>, piece: &[u8]) -> Result<(), Memory>
    ensures ok { OnOk result (bytes.new.items ≡ bytes.old.items ++ piece.now) }
    ensures err { OnErr result (bytes.new.items ≡ bytes.old.items) }
{
    if piece.len() == 1 {
        if bytes.len() == bytes.capacity() {
            bytes.reserve(ROOM_FOR_BYTES)?;
        }
        bytes.push(piece[0])?;
    } else {
        bytes.extend_from_slice(piece)?;
    }
    Ok(())
}

/// The bytes without so many at the front, and with a piece at the end, unless memory runs out.
///
/// They are moved here and back, so that a caller that keeps a reader to itself can hold it in registers. That this is
/// called seldom is so where bytes come alone, and matters there.
#[cold]
#[inline(never)]
fn moved_on(bytes: Vec<u8>, count: usize, piece: &[u8]) -> (Vec<u8>, Result<(), Memory>)
    requires { count ≤ length bytes.items }
    ensures ok { OnOk result.1 (result.0.items ≡ drop count bytes.items ++ piece.now) }
    ensures err { OnErr result.1 (result.0.items ≡ drop count bytes.items) }
{
    let mut bytes = bytes;
    if count > 0 {
        drop_front(&mut bytes, count);
    }
    let answer = append(&mut bytes, piece);
    (bytes, answer)
}

/// How many bytes there may be in all, if no message comes before so many stand behind the last one. There is room for
/// them, and nothing to let go of before them; none where there are more already.
#[inline(always)]
fn quiet_to(taken: usize, at: usize, count: usize, bytes: &Vec<u8>) -> usize
    ensures most { result ≤ at + count }
    ensures fits { result ≤ vec_capacity bytes.now }
    ensures front { 0 < result → at ≤ taken }
    ensures left { 0 < result → length bytes.now.items ≤ result }
{
    let most = at.saturating_add(count).min(bytes.capacity());
    if at > taken || most < bytes.len() {
        0
    } else {
        most
    }
}

/// A reader of the messages of one stream, which comes in any pieces. It keeps its allocator.
#[derive(Debug, Drop)]
pub struct Reader {
    bytes: Vec<u8>,
    // How long the last answered message is, and where it ends.
    taken: usize,
    at: usize,
    // How many bytes behind that no end of a head begins among.
    clean: usize,
    // How many bytes a message there has at least.
    wanted: usize,
    // Up to how many bytes in all no message comes, unless by an LF; there is room for them. 0 where that isn't known.
    quiet: usize,
}

impl Model for Reader {
    ghost Value = { Stream };

    ghost view = { λ r. record { taken = take r.taken (drop (r.at - r.taken) r.bytes.items); rest = drop r.at r.bytes.items; held = length r.bytes.items } };

    ghost invariant = { λ r. Keeps r.bytes.items r.taken r.at r.clean r.wanted r.quiet (vec_capacity r.bytes) };
}

impl Reader {
    /// A reader of a stream of which nothing has come. Takes no memory.
    pub fn new(alloc: Global) -> Reader
        ensures { result ≡ record { taken = []; rest = []; held = 0 } }
    {
        Reader {
            bytes: Vec::new(alloc),
            taken: 0,
            at: 0,
            clean: 0,
            wanted: 0,
            quiet: 0,
        }
    }

    /// Takes a piece and lets go of what stands before the last answered message.
    #[inline(always)]
    fn feed_on(&mut self, piece: &[u8]) -> Result<(), Memory>
        ensures taken { self.new.taken ≡ self.old.taken }
        ensures ok { OnOk result (self.new.rest ≡ self.old.rest ++ piece.now) }
        ensures err { OnErr result (self.new.rest ≡ self.old.rest) }
        ensures held { self.new.held ≡ length self.new.taken + length self.new.rest }
        ensures most { self.new.held ≤ length self.old.taken + length self.old.rest + length piece.now }
    {
        let alloc = *self.bytes.allocator();
        let bytes = replace(&mut self.bytes, Vec::new(alloc));
        let (bytes, answer) = moved_on(bytes, self.at - self.taken, piece);
        self.bytes = bytes;
        self.at = self.taken;
        self.quiet = 0;
        answer
    }

    /// Looks for the next message.
    #[inline(always)]
    fn next_on(&mut self) -> Result<Option<Message>, Memory>
        ensures some { IfOk result (λ m. IfSome m (λ x. asked self.old.rest ≡ Some (x, length self.new.taken))) }
        ensures cut { IfOk result (λ m. IfSome m (λ x. self.old.rest ≡ self.new.taken ++ self.new.rest)) }
        ensures none { IfOk result (λ m. IfNone m (asked self.old.rest ≡ None)) }
        ensures kept { IfOk result (λ m. IfNone m (self.new ≡ self.old)) }
        ensures err { OnErr result (self.new ≡ self.old) }
        ensures held { self.new.held ≡ self.old.held }
    {
        let alloc = *self.bytes.allocator();
        let rest = self.bytes.as_slice().split_at(self.at).1;
        match look(alloc, rest, self.clean, self.wanted)? {
            Looked::Found(message, length) => {
                self.taken = length;
                self.at += length;
                self.clean = 0;
                self.wanted = 0;
                self.quiet = 0;
                Ok(Some(message))
            }
            Looked::Head(clean) => {
                self.quiet = quiet_to(self.taken, self.at, MOST_HEAD - 1, &self.bytes);
                self.clean = clean;
                Ok(None)
            }
            Looked::Body(wanted) => {
                self.quiet = quiet_to(self.taken, self.at, wanted - 1, &self.bytes);
                self.wanted = wanted;
                Ok(None)
            }
        }
    }

    /// Takes the next piece of the stream. For want of memory the stream stays as it was. Nothing is kept but the last
    /// answered message and what has come behind it.
    ///
    /// The time that this takes is that of the piece, where `next` was asked for messages until there was none; else the
    /// rest is moved too. A byte alone is pushed, where a message can come by an LF at most.
    #[inline]
    pub fn feed(&mut self, piece: &[u8]) -> Result<(), Memory>
        ensures taken { self.new.taken ≡ self.old.taken }
        ensures ok { OnOk result (self.new.rest ≡ self.old.rest ++ piece.now) }
        ensures err { OnErr result (self.new.rest ≡ self.old.rest) }
        ensures held { self.new.held ≡ length self.new.taken + length self.new.rest }
        ensures most { asked self.old.rest ≡ None → self.new.held < length self.new.taken + most_message + length piece.now }
    {
        if piece.len() == 1 && piece[0] != b'\n' && self.bytes.len() < self.quiet {
            self.bytes.push_reserved(piece[0]);
            return Ok(());
        }
        self.feed_on(piece)
    }

    /// The message that the stream goes on with, whole or refused; none where it has not come yet. For want of
    /// memory the reader stays as it was.
    #[inline]
    pub fn next(&mut self) -> Result<Option<Message>, Memory>
        ensures some { IfOk result (λ m. IfSome m (λ x. asked self.old.rest ≡ Some (x, length self.new.taken))) }
        ensures cut { IfOk result (λ m. IfSome m (λ x. self.old.rest ≡ self.new.taken ++ self.new.rest)) }
        ensures none { IfOk result (λ m. IfNone m (asked self.old.rest ≡ None)) }
        ensures kept { IfOk result (λ m. IfNone m (self.new ≡ self.old)) }
        ensures err { OnErr result (self.new ≡ self.old) }
        ensures held { self.new.held ≡ self.old.held }
    {
        if self.quiet > 0 {
            return Ok(None);
        }
        self.next_on()
    }

    /// The bytes of the last answered message, none before the first.
    pub fn taken(&self) -> &[u8]
        ensures is { result.now ≡ self.now.taken }
        ensures most { length result.now ≤ most_message }
    {
        self.bytes
            .as_slice()
            .split_at(self.at - self.taken)
            .1
            .split_at(self.taken)
            .0
    }

    /// The bytes that have come behind the last answered message.
    pub fn rest(&self) -> &[u8]
        ensures { result.now ≡ self.now.rest }
    {
        self.bytes.as_slice().split_at(self.at).1
    }

    /// How many bytes the reader keeps.
    pub fn held(&self) -> usize
        ensures { result ≡ self.now.held }
    {
        self.bytes.len()
    }
}
