//! What holds of frames.

ghost use Rattle.std.specs.Prelude.{◌≡◌, ◌+◌, List, ℕ, ◌++◌, Ok, true, drop, length};
ghost use Rattle.std.specs.List.{AllByRecursion};
ghost use Rattle.jn_base.specs.declared.names.Party.{Party};
ghost use Rattle.jn_base.specs.declared.names.ServerNo.{ServerNo};
ghost use Rattle.jn_wire.specs.declared.frame.Framed.{Framed};
ghost use Rattle.jn_wire.specs.Answering.{decode_by, IsSentTo};
ghost use Rattle.jn_wire.specs.Spelling.{body_bytes, frame_bytes, stream_bytes, AreBytes, IsSent};
ghost use Rattle.jn_wire.specs.Decoding.{decode};
ghost use Rattle.jn_wire.specs.Unframing.{Held, unframed, unframed_by, IsUnframed, is_whole, nothing_held, joined};

/// A frame is read back by its receiver from the bytes that it is written as: kinds 7 to 10 by a client, the others by a server.
pub fn frames_are_read_back()
    ensures { (p : Party) (f : Framed) → IsSentTo p f → decode_by p (body_bytes f) ≡ Ok f }
{}

/// Frames that are written one behind another are read back from a stream of them, and nothing is held then.
pub fn streams_are_read_back()
    ensures { (p : Party) (at : ℕ) (fs : List Framed) → AllByRecursion (IsSentTo p) fs
        → unframed_by (decode_by p) (nothing_held at) (stream_bytes fs) ≡ record { held = nothing_held (at + length (stream_bytes fs)); frames = fs } }
{}

/// No other bytes are read as a frame: what a whole one gives is what the server may be sent, and is written as these bytes.
pub fn no_other_bytes_are_read()
    ensures { (s : ServerNo) (frame : List ℕ) (f : Framed) → AreBytes frame → is_whole frame ≡ true → decode s (drop 2 frame) ≡ Ok f
        → (frame ≡ frame_bytes f) × IsSent s f }
{}

/// Bytes that are fed in two pieces give what they give in one.
pub fn pieces_join()
    ensures { (s : ServerNo) (h : Held) (xs ys : List ℕ) → unframed s h (xs ++ ys) ≡ joined s (unframed s h xs) ys }
{}

/// What is given are the whole frames of all bytes so far, and a fault stands where the first bytes are that aren't one.
pub fn what_is_held_is_no_frame()
    ensures { (s : ServerNo) (bytes : List ℕ) → IsUnframed s 0 bytes (unframed s (nothing_held 0) bytes) }
{}
