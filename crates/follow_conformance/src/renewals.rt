//! Inputs of more lines than one board takes.

use crate::inputs::{AUDIENCE, ended_by, graph_of};
use collector::Watched;
use std::alloc::AllocError;

/// 9,000 epochs with one record each: 18,000 lines.
const EPOCHS: usize = 9_000;

/// That many bytes of a text, from one on.
fn part(text: &[u8], from: usize, count: usize) -> &[u8] {
    let (_, back) = text.split_at(from.min(text.len()));
    let (front, _) = back.split_at(count.min(back.len()));
    front
}

// An epoch's two lines have 15 bytes where its number has one digit, and two more for each further digit. So those of epoch 8191, the last on
// the first board, begin at byte 10 * 15 + 90 * 17 + 900 * 19 + 7191 * 21.
#[test]
fn two_boards(rt: HostRuntime) -> Result<(), AllocError> {
    let Some(graph) = graph_of(rt.alloc(), AUDIENCE) else {
        return Err(AllocError);
    };
    let mut text = Vec::new(rt.alloc());
    for _epoch in 0..EPOCHS {
        text.extend_from_slice(b"epoch\nbuyer 7\n")?;
    }
    let mut out = Watched::new(Vec::new(rt.alloc()));
    let mut reader = Watched::new(text.as_slice());
    let ended = ended_by(&rt, rt.alloc(), 1, graph, &mut reader, &mut out);
    assert!(rt; matches!(ended, Ok(())));
    let written = out.into_inner();
    assert_eq!(rt; written.len(), 186_780);
    assert_eq!(rt;
        part(written.as_slice(), 169_791, 42),
        b"8191 7\ncomplete 8191\n8192 7\ncomplete 8192\n".as_slice()
    );
    assert_eq!(rt;
        part(written.as_slice(), 186_759, 21),
        b"8999 7\ncomplete 8999\n".as_slice()
    );
    Ok(())
}
