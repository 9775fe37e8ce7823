//! The list of refusals.
use refusal::Refusal;
use std::test::Fail;

#[test]
fn numbers(rt: HostRuntime) {
    let all = [
        Refusal::Torn,
        Refusal::Digit,
        Refusal::Frame,
        Refusal::Turn,
        Refusal::Shape,
        Refusal::Column,
        Refusal::Price,
        Refusal::Owners,
        Refusal::Blocks,
        Refusal::Ceiling,
        Refusal::Table,
        Refusal::Count,
        Refusal::NoCut,
        Refusal::Short,
        Refusal::Unequal,
        Refusal::Capacity,
    ];
    for (i, reason) in all.iter().enumerate() {
        assert_eq!(rt; reason.number() as usize, i + 1);
    }
}

#[test]
fn sentences(rt: HostRuntime) -> Result<(), Fail> {
    let shape = Refusal::Shape;
    let no_cut = Refusal::NoCut;
    let text = format!(in rt.alloc(); "{shape}; {no_cut}")?;
    assert!(rt; text.as_str() == "the sizes or the row starts are wrong; no cut stands yet");
    Ok(())
}
