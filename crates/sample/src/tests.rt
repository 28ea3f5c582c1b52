// The worked counts of the first 16 groups.
use crate::counts::{Counts, counts_text};
use crate::reports::sample;
use std::test::Fail;

const FIRST_16: Counts = Counts {
    groups: 16,
    special: 22,
    sections: 38,
    own: 27,
    unrecognised: 0,
};

const TEXT: &str = "\
groups 16
special 22
sections 38
own 27
unrecognised 0
end
";

#[test]
fn the_counts_of_16_groups(rt: HostRuntime) -> Result<(), Fail> {
    let counts = sample(rt.alloc(), 16)?;
    assert_eq!(rt; counts, FIRST_16);
    let text = counts_text(rt.alloc(), &counts)?;
    assert_eq!(rt; text.as_slice(), TEXT.as_bytes());
    Ok(())
}
