// The packet in a frame.
ghost use Rattle.std.specs.Prelude.{◌≡◌};
ghost use Rattle.packets.specs.Packet.{packet_in};

// The packet in a frame: without the kind before it and the sum behind it; nothing where the frame is too short for both.
pub fn packet_in(frame: &[u8]) -> &[u8]
    ensures { result.now ≡ packet_in frame.now }
{
    frame.get(1..frame.len().saturating_sub(4)).unwrap_or(&[])
}
