// Kinds of kinds, and their numbers.
use masks::Mask;
use pairs::Pair;
use std::test::Fail;
use variants::{Single, VariantSet};

type Two<S> = Pair<S, S>;

type Masks4 = Two<Two<Mask>>;

type Masks16 = Two<Two<Masks4>>;

// The size of a kind, the numbers of its least and of its full set, and whether it has number 1023.
fn measure<S: VariantSet>() -> (u32, u32, Option<u32>, bool) {
    (
        S::size(),
        S::all().count(),
        S::all().least(),
        S::only(1023).has(1023),
    )
}

#[test]
fn a_pair_numbers_the_second_kind_after_the_first(rt: HostRuntime) {
    let last = Pair {
        first: Single::none(),
        second: Mask::only(63),
    };
    assert_eq!(rt; Pair::<Single, Mask>::size(), 65);
    assert!(rt; last.has(64), "number 64 is the mask's 63");
    assert_eq!(rt; last.least(), Some(64));
    assert!(rt; Pair::<Single, Mask>::only(64).same(last));
    assert_eq!(rt; Pair::<Single, Mask>::only(65).count(), 0);
    assert_eq!(rt; Pair::<Single, Mask>::only(65).least(), None);
}

#[test]
fn sixteen_masks_have_1024_variants(rt: HostRuntime) {
    assert_eq!(rt; measure::<Masks16>(), (1024, 1024, Some(0), true));
}

#[test]
fn one_more_is_counted_no_further(rt: HostRuntime) {
    assert_eq!(rt;
        measure::<Pair<Masks16, Single>>(),
        (1025, 1025, Some(0), true)
    );
    let beyond = Pair {
        first: Masks16::none(),
        second: Single::all(),
    };
    assert_eq!(rt; beyond.count(), 1);
    assert_eq!(rt;
        beyond.least(),
        None,
        "number 1024 is held, and no number up to 1023"
    );
}

#[test]
fn a_mask_is_written_as_its_numbers(rt: HostRuntime) -> Result<(), Fail> {
    let text = format!(in rt.alloc(); "{} {}", Mask::none(), Mask { bits: 0b1001 })?;
    assert_eq!(rt; text.as_str(), "{} {0,3}");
    Ok(())
}
