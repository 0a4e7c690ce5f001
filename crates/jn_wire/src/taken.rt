//! What a server may do with the frames that it reads.

ghost use Rattle.std.specs.Prelude.{◌≡◌, ◌≤◌, List, ℕ, Ok, length};
ghost use Rattle.std.specs.List.{AllByRecursion};
ghost use Rattle.jn_base.specs.declared.names.ServerNo.{ServerNo};
ghost use Rattle.jn_wire.specs.declared.frame.Framed.{Framed};
ghost use Rattle.jn_wire.specs.Decoding.{decode};
ghost use Rattle.jn_wire.specs.Unframing.{Held, unframed};
ghost use Rattle.jn_wire.specs.Taking.{MayCome};

/// Whatever bytes come, a message that is read can be taken and names servers below 8 alone. There are no more of them than bytes.
pub fn what_is_read_can_be_taken()
    ensures read { (s : ServerNo) (bytes : List ℕ) (f : Framed) → decode s bytes ≡ Ok f → MayCome f.body }
    ensures given { (s : ServerNo) (h : Held) (bytes : List ℕ) → AllByRecursion (λ (f : Framed). MayCome f.body) (unframed s h bytes).frames }
    ensures few { (s : ServerNo) (h : Held) (bytes : List ℕ) → length (unframed s h bytes).frames ≤ length bytes }
{}
