// Whatever the port writes is read back the same: the records of every operation, memory operation, print, routine and order that is accepted.
// The claim is in specs/Claims.antt; its proof cites the theorem.
#![tactic(auto)]

ghost use Rattle.emit_proof.specs.Claims.{WrittenIsRead, FreshFollowsBytes};

pub fn written_is_read()
    ensures { WrittenIsRead }
{}

// the state that lists of orders start from is what the setup's bytes leave
pub fn fresh_follows_bytes()
    ensures { FreshFollowsBytes }
{}
