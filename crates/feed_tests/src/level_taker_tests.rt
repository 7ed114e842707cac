use crate::graphs::graph_of;
use group_feed::{LevelTaker, drive_feed};
use search_pool::OpenGate;
use std::test::Fail;

#[test]
fn levels_come_with_the_groups(rt: HostRuntime) -> Result<(), Fail> {
    let alloc = rt.alloc();
    let graph = graph_of(alloc, &[&[1], &[0, 2], &[3], &[3]], &[0])?;
    let mut taker = LevelTaker::new(alloc, &graph)?;
    let groups = drive_feed(&rt, alloc, &graph, graph.roots(), 2, &OpenGate, &mut taker)?;
    assert_eq!(rt;
        format!(in alloc; "{groups:?}")?.as_str(),
        "[[3], [2], [0, 1]]"
    );
    let levels = taker.levels();
    assert_eq!(rt;
        format!(in alloc; "{levels:?}")?.as_str(),
        "[Level { height: 0, recursive: true }, Level { height: 1, recursive: false }, Level { height: 2, recursive: true }]"
    );
    Ok(())
}
