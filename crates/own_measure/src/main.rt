// A measure of a caller's own, in every call that takes a measure.
#![tactic(auto)]

mod prolonged;

use engine::Study;
use feeder::{MOST_SECTIONS, Section};
use measures::{Capped, Measure};
use prolonged::Prolonged;
use std::fs;
use sweeps::By;

fn main(rt: HostRuntime) -> anyhow::Result<()> {
    let archive = fs::read(&rt, "feeder.arc")?;
    // An array, in fixed memory: a study fills the list that it is lent and asks for no more.
    let mut list = [Section::BLANK; MOST_SECTIONS];
    let mut study = Study::open(&mut list);
    if study.load(&archive).is_err() {
        println!(rt; "refused")?;
        return Ok(());
    }
    questions(&rt, &study)?;
    trials(&rt, &mut study)
}

fn questions(rt: &HostRuntime, study: &Study) -> anyhow::Result<()> {
    let m = Prolonged;
    if let Ok(total) = study.total(&m, 2) {
        println!(rt; "total of node 2: {}", total.value)?;
    }
    // An array, in fixed memory: the call writes to the list that it is lent.
    let mut values = [m.nothing(); 4];
    if study.totals(&m, &mut values).is_ok() {
        print_all(rt, "totals", &values)?;
    }
    if let Ok(flow) = study.flow(&m, 1) {
        println!(rt; "flow at section 1: {}", flow.value)?;
    }
    if let (Ok(load), Ok(customers)) = (
        study.weighted_sum(&m, By::Load),
        study.weighted_sum(&m, By::Customers),
    ) {
        println!(rt; "sums: {load} by load, {customers} by customers")?;
    }
    if let Ok(node) = study.worst(&m) {
        println!(rt; "worst node: {node}")?;
    }
    Ok(())
}

fn trials(rt: &HostRuntime, study: &mut Study) -> anyhow::Result<()> {
    let m = Prolonged;
    if let Ok((flow, load, product)) = study.short_trial(&m, 1) {
        println!(rt; "short trial of 1: {flow} {load} {product}")?;
    }
    // An array, in fixed memory: the call writes to the list that it is lent.
    let mut values = [m.nothing(); 4];
    if study.full_trial(&m, 1, &mut values).is_ok() {
        print_all(rt, "full trial of 1", &values)?;
    }
    if study.fit(1).is_ok() && study.totals(&m, &mut values).is_ok() {
        print_all(rt, "totals once fitted", &values)?;
    }
    Ok(())
}

fn print_all(rt: &HostRuntime, what: &str, values: &[Capped]) -> anyhow::Result<()> {
    print!(rt; "{what}:")?;
    for v in values {
        print!(rt; " {}", v.value)?;
    }
    println!(rt)?;
    Ok(())
}
