// Two sites make the same changes, section by section in the same order and otherwise in orders of their own, some by library calls
// and some by console lines, with questions and refused lines in between. Both end on one feeder and answer alike.
#![tactic(auto)]

mod site;

use feeder::{MOST_SECTIONS, Section};
use journal::same_changes;
use site::Site;
use std::fs;

fn main(rt: HostRuntime) -> anyhow::Result<()> {
    let archive = fs::read(&rt, "feeder.arc")?;
    // Arrays, in fixed memory: a study fills the list that it is lent and asks for no more.
    let mut north_list = [Section::BLANK; MOST_SECTIONS];
    let mut south_list = [Section::BLANK; 8];
    let Ok(north) = Site::open(&rt, "north", &mut north_list, &archive) else {
        return refused(&rt);
    };
    let Ok(south) = Site::open(&rt, "south", &mut south_list, &archive) else {
        return refused(&rt);
    };
    compare(&rt, north, south)?;
    println!(rt;
        "both hold one feeder: {}",
        same_sections(&north_list, &south_list)
    )?;
    Ok(())
}

fn refused(rt: &HostRuntime) -> anyhow::Result<()> {
    println!(rt; "the archive is refused")?;
    Ok(())
}

fn compare(rt: &HostRuntime, mut north: Site, mut south: Site) -> anyhow::Result<()> {
    north.play(rt)?;
    south.play(rt)?;
    println!(rt;
        "north recorded {} changes, south {}",
        north.journal().len(),
        south.journal().len()
    )?;
    println!(rt;
        "the same changes at each section: {}",
        same_changes(north.journal(), south.journal())
    )?;
    north.ask(rt)?;
    south.ask(rt)
}

// Whether the sections that both lists have are the same in figures and marks.
fn same_sections(a: &[Section], b: &[Section]) -> bool {
    a.iter().zip(b).all(|(x, y)| x == y)
}
