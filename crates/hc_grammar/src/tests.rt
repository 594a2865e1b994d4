use super::{Stack, Symbol, have_one_text, reads_exactly};
use std::test::Fail;

/// A stack gives back what was put on it, the first of a list first.
#[test]
fn gives_back_in_order(rt: HostRuntime) -> Result<(), Fail> {
    let mut stack: Stack<u32> = Stack::new(rt.alloc());
    assert!(rt; stack.is_empty());
    stack.push(4)?;
    stack.push_all(&[1, 2, 3])?;
    for wanted in [1, 2, 3, 4] {
        assert_eq!(rt; stack.pop(), Some(wanted));
    }
    assert_eq!(rt; stack.pop(), None);
    Ok(())
}

/// A stack of symbols, and the theorems at the types of that stack.
#[test]
fn keeps_symbols(rt: HostRuntime) -> Result<(), Fail> {
    let mut stack: Stack<Symbol<u8, u16, u32, bool>> = Stack::new(rt.alloc());
    stack.push_all(&[Symbol::Mark(true), Symbol::Head(7), Symbol::Token(1, 2)])?;
    assert!(rt; matches!(stack.pop(), Some(Symbol::Mark(true))));
    assert!(rt; matches!(stack.pop(), Some(Symbol::Head(7))));
    assert!(rt; matches!(stack.pop(), Some(Symbol::Token(1, 2))));
    reads_exactly::<u8, u16, u32, bool, u64, u64, u8, u64>();
    have_one_text::<u8, u16, u32, bool, u64, u64, u8, u64>();
    Ok(())
}
