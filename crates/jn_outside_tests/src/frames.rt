//! Frames written, and a stream of them read in pieces: the worked bytes of `docs/FRAMES.md`.

ghost use Rattle.std.specs.Prelude.{◌<◌, ◌+◌, length};

use jn_base::{ClientNo, Party, RequestNo, ServerNo, Tid};
use jn_msgs::Message;
use jn_wire::{Body, Framed, Unframer, WireError, WireFault, encode};
use std::alloc::Global;
use std::test::Fail;

/// Client 1 begins a transaction, and is told its name.
const WRITTEN: [u8; 34] = [
    0, 10, 1, 1, 2, 0, 1, 1, 0, 0, 0, 1, 0, 20, 2, 0, 1, 1, 7, 1, 0, 0, 0, 1, 0, 0, 0, 0, 0, 3, 0,
    0, 0, 1,
];

/// Client 1 begins a transaction, client 8 nudges, and sends a kind that no server takes.
const STREAM: [u8; 26] = [
    0, 10, 1, 1, 2, 0, 1, 1, 0, 0, 0, 1, 0, 5, 1, 8, 2, 0, 17, 0, 5, 1, 8, 2, 0, 7,
];

#[test]
fn writes_frames(rt: HostRuntime) -> Result<(), Fail> {
    let client = Party::Client(ClientNo(1));
    let server = Party::Server(ServerNo(0));
    let begin = Framed {
        from: client,
        to: server,
        body: Body::Message(Message::Begin(ClientNo(1), RequestNo(1))),
    };
    let tid = Tid {
        server: ServerNo(0),
        epoch: 3,
        ticket: 1,
    };
    let begun = Framed {
        from: server,
        to: client,
        body: Body::Message(Message::Begun(ClientNo(1), RequestNo(1), Some(tid))),
    };
    let mut out = Vec::new(rt.alloc());
    encode(&begin, &mut out)?;
    encode(&begun, &mut out)?;
    assert_eq!(rt; out.as_slice(), WRITTEN.as_slice());
    Ok(())
}

/// Reads a stream of two pieces to its end.
fn read(alloc: Global, first: &[u8], second: &[u8], out: &mut Vec<Framed>) -> Result<(), WireError>
    requires { length first.now + length second.now < 1000 }
{
    let mut unframer = Unframer::new(alloc, ServerNo(0));
    unframer.feed(first, out)?;
    unframer.feed(second, out)?;
    unframer.end()
}

#[test]
fn half_a_frame_is_at_fault(rt: HostRuntime) -> Result<(), Fail> {
    let half = WireError::Fault(WireFault { at: 0, number: 1 });
    let mut out = Vec::new(rt.alloc());
    for at in 0..11usize {
        assert_eq!(rt;
            read(rt.alloc(), &WRITTEN[..at], &WRITTEN[at..11], &mut out),
            Err(half)
        );
    }
    assert_eq!(rt; out.len(), 0);
    Ok(())
}

#[test]
fn reads_a_stream_in_pieces(rt: HostRuntime) -> Result<(), Fail> {
    let unknown = WireError::Fault(WireFault { at: 19, number: 4 });
    let cut_off = WireError::Fault(WireFault { at: 12, number: 1 });
    let mut out = Vec::new(rt.alloc());
    assert_eq!(rt;
        read(rt.alloc(), &STREAM[..1], &STREAM[1..], &mut out),
        Err(unknown)
    );
    assert_eq!(rt; out.len(), 2);
    assert_eq!(rt;
        read(rt.alloc(), &STREAM[..15], &STREAM[15..18], &mut out),
        Err(cut_off)
    );
    assert_eq!(rt; out.len(), 3);
    assert_eq!(rt;
        read(rt.alloc(), &STREAM[..12], &STREAM[12..19], &mut out),
        Ok(())
    );
    assert_eq!(rt; out.len(), 5);
    assert!(rt; matches!(&out[4].body, Body::Nudge));
    Ok(())
}
