//! The numbers among the words.
use crate::tests::fakes::texts;
use crate::words::{Request, read_words};
use std::alloc::{AllocError, Global};
use std::test::Fail;

/// The numbers of words that ask for a puzzle to be made.
fn numbers_to_make(alloc: Global, words: &[&str]) -> Result<Option<[u64; 4]>, AllocError> {
    let words = texts(alloc, words)?;
    Ok(match read_words(alloc, words.as_slice())? {
        Some(Request::Generate { size, recipe, .. }) if size == "4x5" => {
            let limits = recipe.limits;
            let tries = u64::from(limits.tries);
            let black = u64::from(recipe.black.value);
            Some([recipe.seed, limits.budget, tries, black])
        }
        _ => None,
    })
}

#[test]
fn numbers_are_read(rt: HostRuntime) -> Result<(), Fail> {
    let most = "18446744073709551615";
    let of_most = Some([u64::MAX, 100_000, 4_294_967_295, 0]);
    let all_black = Some([0, 100_000, 1_000, 100]);
    for (game, seed, option, value, numbers) in [
        ("pattern", "1", "--budget", "7", Some([1, 7, 1_000, 50])),
        ("lightup", "007", "--tries", "00", Some([7, 100_000, 0, 20])),
        ("solo", most, "--tries", "4294967295", of_most),
        ("tents", "0", "--tries", "4294967296", None),
        ("pattern", "0", "--black", "100", all_black),
        ("lightup", "0", "--black", "0", Some([0, 100_000, 1_000, 0])),
        ("lightup", "0", "--black", "101", None),
        ("tents", "0", "--black", "5", None),
        ("solo", "0", "--black", "0", None),
        ("pattern", "18446744073709551616", "--tries", "1", None),
    ] {
        let words = ["generate", game, "4x5", "--seed", seed, option, value];
        let found = numbers_to_make(rt.alloc(), &words)?;
        assert_eq!(rt; found, numbers, "{game} with {option} {value}");
    }
    Ok(())
}
