// Parcels are put in.
ghost use Rattle.std.specs.Prelude.{◌≡◌, ◌+◌, ◌≤◌, [], ◌∷◌, ◌++◌, length};
ghost use Rattle.frames.specs.Ranges.{bytes_of_frame};
ghost use Rattle.frames.specs.Reading.{told_by};
ghost use Rattle.frames.specs.Writing.{bytes_of_hello, bytes_of_line};
ghost use Rattle.wordframes.specs.Writing.{bytes_of_seens, bytes_of_words};
ghost use Rattle.packets.specs.Errors.{error_of};
ghost use Rattle.outbox.specs.Parcels.{HasRoom, UsesAtMost, body_in, contents, parcel_bytes, port_number, sealed};

use crate::reading::Port;
use crate::state::Outbox;
use frames::{Frame, Line};
use messages::{Hello, Seens, Words};
use octets::{put_byte, put_number};
use packets::Trouble;

impl Outbox {
    // Nothing is in it.
    pub fn new() -> Outbox
        ensures { (contents result ≡ []) × (result.used ≡ 0) }
    {
        Outbox {
            bytes: [0; 65536],
            used: 0,
        }
    }

    // All that was in it is gone.
    pub fn clear(&mut self)
        ensures { (contents self.new ≡ []) × (self.new.used ≡ 0) }
    {
        self.used = 0;
    }

    // The `k` bytes behind the place of its head become a parcel.
    fn close(&mut self, port: Port, k: usize)
        requires { self.old.used + k + 3 ≤ 65536 }
        ensures holds { contents self.new ≡ contents self.old ++ parcel_bytes (port_number port) (body_in k self.old) }
        ensures used { self.new.used ≡ self.old.used + k + 3 }
    {
        let at = put_byte(&mut self.bytes, self.used, u8::from(port));
        let at = put_number(&mut self.bytes, at, 2, k as u64);
        self.used = at + k;
    }

    // And with their sum behind them a frame on a wire.
    fn seal(&mut self, wire: u8, k: usize)
        requires { self.old.used + k + 7 ≤ 65536 }
        ensures holds { contents self.new ≡ contents self.old ++ parcel_bytes wire (sealed (body_in k self.old)) }
        ensures used { self.new.used ≡ self.old.used + k + 7 }
    {
        let at = self.used + 3;
        let _ = checksum::crc::write_sum(&mut self.bytes[at..at + k + 4]);
        self.close(Port::Wire(wire), k + 4);
    }
}

impl Outbox {
    // A frame goes out on a wire.
    fn give(&mut self, wire: u8, frame: Frame)
        requires { HasRoom 1 self.old × (length (bytes_of_frame (told_by frame)) ≤ 850) }
        ensures holds { contents self.new ≡ contents self.old ++ parcel_bytes wire (sealed (bytes_of_frame (told_by frame.entry))) }
        ensures used { UsesAtMost 1 self.old self.new }
    {
        let at = self.used + 3;
        let Some(k) = frames::write_frame(frame, &mut self.bytes[at..]) else {
            return;
        };
        self.seal(wire, k);
    }

    // A hello goes out on a wire.
    pub fn give_hello(&mut self, wire: u8, hello: Hello)
        requires { HasRoom 1 self.old }
        ensures holds { contents self.new ≡ contents self.old ++ parcel_bytes wire (sealed (bytes_of_hello hello)) }
        ensures used { UsesAtMost 1 self.old self.new }
    {
        self.give(wire, Frame::Hello(hello));
    }

    // A packet of words goes out on a wire.
    pub fn give_words(&mut self, wire: u8, words: Words)
        requires { HasRoom 1 self.old × (words.count ≤ 4) }
        ensures holds { contents self.new ≡ contents self.old ++ parcel_bytes wire (sealed (bytes_of_words words)) }
        ensures used { UsesAtMost 1 self.old self.new }
    {
        self.give(wire, Frame::Words(words));
    }

    // A packet of seens goes out on a wire.
    pub fn give_seens(&mut self, wire: u8, seens: Seens)
        requires { HasRoom 1 self.old × (seens.count ≤ 4) }
        ensures holds { contents self.new ≡ contents self.old ++ parcel_bytes wire (sealed (bytes_of_seens seens)) }
        ensures used { UsesAtMost 1 self.old self.new }
    {
        self.give(wire, Frame::Seen(seens));
    }

    // The error for a packet, as a frame that goes out on a wire.
    pub fn give_error(&mut self, wire: u8, me: u8, trouble: Trouble, packet: &[u8])
        requires { HasRoom 1 self.old }
        ensures holds { contents self.new ≡ contents self.old ++ parcel_bytes wire (sealed (4 ∷ error_of me trouble packet.now)) }
        ensures used { UsesAtMost 1 self.old self.new }
    {
        let mut error = [0u8; 56];
        let Some(long) = packets::write_error(me, trouble, packet, &mut error) else {
            return;
        };
        self.give(wire, Frame::Packet(&error[..long]));
    }

    // A line goes into the journal.
    // Kept: only a line and a house's error are no frames, and a closure for the writer of each would be longer than the lines that it saves.
    pub fn note(&mut self, line: Line)
        requires { HasRoom 1 self.old }
        ensures holds { contents self.new ≡ contents self.old ++ parcel_bytes 9 (bytes_of_line line) }
        ensures used { UsesAtMost 1 self.old self.new }
    {
        let at = self.used + 3;
        let Some(k) = frames::write_line(line, &mut self.bytes[at..]) else {
            return;
        };
        self.close(Port::Book, k);
    }

    // The error for a packet, as a packet for a house.
    pub fn hand_error(&mut self, me: u8, trouble: Trouble, packet: &[u8])
        requires { HasRoom 1 self.old }
        ensures holds { contents self.new ≡ contents self.old ++ parcel_bytes 8 (error_of me trouble packet.now) }
        ensures used { UsesAtMost 1 self.old self.new }
    {
        let at = self.used + 3;
        let Some(k) = packets::write_error(me, trouble, packet, &mut self.bytes[at..]) else {
            return;
        };
        self.close(Port::House, k);
    }
}
