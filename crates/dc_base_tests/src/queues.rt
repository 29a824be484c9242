//! A queue of two words, and windows of three ticks and of one.

use dc_queue::queue::{Full, WordQueue};
use dc_queue::window::StepWindow;
use dc_word::Word;
use std::test::Fail;

#[test]
fn first_in_first_out(rt: HostRuntime) -> Result<(), Fail> {
    let mut queue = WordQueue::new(rt.alloc(), 2)?;
    assert!(rt; queue.is_empty());
    assert!(rt; queue.put(Word(7)) == Ok(1));
    assert!(rt; queue.put(Word(8)) == Ok(2));
    assert!(rt; queue.put(Word(9)) == Err(Full));
    assert!(rt; queue.len() == 2);
    assert!(rt; queue.take() == Some(Word(7)));
    assert!(rt; queue.put(Word(9)) == Ok(2));
    assert!(rt; queue.take() == Some(Word(8)));
    assert!(rt; queue.take() == Some(Word(9)));
    assert!(rt; queue.take().is_none());
    assert!(rt; queue.is_empty());
    Ok(())
}

#[test]
fn window_holds_the_last_three_ticks(rt: HostRuntime) -> Result<(), Fail> {
    let mut window = StepWindow::new(rt.alloc(), 3, 2)?;
    assert!(rt; window.total() == 0);
    assert!(rt; !window.is_spent());
    assert!(rt; !window.lacks(1), "one tick has begun");
    for (steps, total) in [(2, 2), (1, 3), (0, 3), (1, 2)] {
        for _step in 0..steps {
            if !window.is_spent() {
                window.add();
            }
        }
        assert!(rt; window.total() == total);
        window.turn();
    }
    assert!(rt;
        window.total() == 1,
        "of the last three ticks, the unfinished one is empty"
    );
    assert!(rt; !window.lacks(1));
    assert!(rt; window.lacks(2));
    Ok(())
}

#[test]
fn tick_has_room_for_so_many_steps(rt: HostRuntime) -> Result<(), Fail> {
    let mut window = StepWindow::new(rt.alloc(), 1, 1)?;
    assert!(rt; window.lacks(1));
    if !window.is_spent() {
        window.add();
    }
    assert!(rt; window.is_spent());
    assert!(rt; !window.lacks(1));
    window.turn();
    assert!(rt; !window.is_spent());
    assert!(rt; window.total() == 0);
    Ok(())
}
