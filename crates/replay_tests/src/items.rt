use crate::runs::ran;
use evaluator::Cells;
use replay::RunRefusal;
use schedule::{Item2, Schedule};
use std::test::Fail;
use zbase::Bytes;

#[test]
fn other_items_break_the_run_off(rt: HostRuntime) -> Result<(), Fail> {
    let alloc = rt.alloc();
    for item in [
        Item2::Step(16),
        Item2::Step(u32::MAX),
        Item2::Request(16, Bytes::from_slice(alloc, b"log")?),
        Item2::Stop(0, 1),
        Item2::Fail(0, 1),
        Item2::End,
    ] {
        let mut items = Schedule::new(alloc);
        items.push(Item2::Step(15))?;
        items.push(item)?;
        items.push(Item2::Step(0))?;
        let (refusal, text) = ran(alloc, &items, Cells::new(alloc))?;
        assert_eq!(rt; refusal, Some(RunRefusal::BadLine(3)));
        assert_eq!(rt;
            text.as_str(),
            "zope report 1\nopen 0000000000000000 0\nidle 15\n"
        );
    }
    Ok(())
}
