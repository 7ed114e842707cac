use crate::graphs::tailed_ring;
use group_release::Book;
use std::test::Fail;

#[test]
fn gives_its_roots_out_and_fails(rt: HostRuntime) -> Result<(), Fail> {
    let alloc = rt.alloc();
    let graph = tailed_ring(alloc)?;
    let mut book = Book::make(alloc, &graph, &[3, 0])?;
    assert_eq!(rt; book.roots(), [3, 0].as_slice());
    assert_eq!(rt; book.next_root(), Some(3));
    assert_eq!(rt; book.next_root(), Some(0));
    assert_eq!(rt; book.next_root(), None);
    assert!(rt; !book.has_ready());
    assert!(rt; book.take_ready().is_none());
    assert_eq!(rt; book.blocked().holder(3), None);
    assert!(rt; !book.released().holds(3));
    assert!(rt; !book.has_failed());
    book.fail();
    assert!(rt; book.has_failed());
    assert!(rt; book.into_groups().is_empty());
    Ok(())
}
