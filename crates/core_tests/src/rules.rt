//! The rules of the puzzle with an ID.

use engine_core::{HouseRules, RuleSet};
use fields_core::{LightRules, TentRules};
use gameid_core::{SoloPuzzle, read_lights, read_pattern, read_solo, read_tents};
use pattern_core::PatternLines;
use std::alloc::Global;
use std::test::Fail;

pub(crate) fn solo<S: RuleSet<Puzzle = SoloPuzzle>>(
    alloc: Global,
    id: &str,
) -> Result<HouseRules<S>, Fail> {
    let puzzle = read_solo(alloc, id.as_bytes())?;
    Ok(HouseRules::<S>::new(alloc, &puzzle)?)
}

pub(crate) fn pattern(alloc: Global, id: &str) -> Result<PatternLines, Fail> {
    let puzzle = read_pattern(alloc, id.as_bytes())?;
    Ok(PatternLines::new(alloc, &puzzle)?)
}

pub(crate) fn lights(alloc: Global, id: &str) -> Result<LightRules, Fail> {
    let puzzle = read_lights(alloc, id.as_bytes())?;
    Ok(LightRules::new(alloc, &puzzle)?)
}

pub(crate) fn tents(alloc: Global, id: &str) -> Result<TentRules, Fail> {
    let puzzle = read_tents(alloc, id.as_bytes())?;
    Ok(TentRules::new(alloc, &puzzle)?)
}
