// Serving, where the dialogue is told.
use crate::serve_both;
use std::test::Fail;
use vx_ends::{MemDuplex, Piece};

// whether these bytes were sent
fn is_sent(piece: &Piece, bytes: &[u8]) -> bool {
    match piece {
        Piece::Sent(sent) => sent.as_slice() == bytes,
        Piece::Got(_) => false,
    }
}

#[test]
fn an_answer_is_put_before_more_is_read(rt: HostRuntime) -> Result<(), Fail> {
    let alloc = rt.alloc();
    let commands = b"(push 1)\n(push 2)\n".to_vec(alloc)?;
    let mut ends = MemDuplex::new(alloc, commands, 9);
    assert_eq!(rt; serve_both(alloc, &mut ends), 0);
    let pieces = ends.record().pieces(alloc)?;
    let mut sent = Vec::new(alloc);
    for piece in &pieces {
        sent.push(is_sent(piece, b"success\n"))?;
    }
    assert_eq!(rt;
        sent.as_slice(),
        [false, true, false, true, false].as_slice()
    );
    Ok(())
}
