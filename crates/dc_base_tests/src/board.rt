//! A board of two words.

use dc_board::Board;
use std::test::Fail;

#[test]
fn marks_of_two_seats(rt: HostRuntime) -> Result<(), Fail> {
    let alloc = rt.alloc();
    let (board, mut seat) = Board::new(alloc, vec![in alloc; 7, 9]?)?;
    let mut other = board.split(&mut seat);
    board.note(&mut seat, 1, 5);
    board.note(&mut other, 1, 3);
    assert!(rt; board.read(&mut other, 1) == 5);
    assert!(rt; board.read(&mut seat, 1) == 5);
    assert!(rt; board.read(&mut seat, 0) == 0);
    assert!(rt; board.cap(1) == 9);
    Ok(())
}
