//! The opening words of a small shape, and a take made alone: the kind, the place and the word of each step.

use crate::{Kind, NextStep, TransferView, can_step, opening_words, step_transfer};
use std::process::Abort;
use std::test::Fail;
use word_layout::{Announced, Reply, Shape, Tagged, Wish};

/// Steps of one kind, on words that follow one another: the kind, the first place, the tag, and the value of each
/// word after its step.
type Row = (Kind, u32, u64, &'static [u32]);

/// Makes one step, and answers its kind.
fn step(rt: &impl Abort, shape: &Shape, words: &mut [u64], view: &mut TransferView) -> Kind {
    assert!(rt; view.next != NextStep::Rest);
    assert!(rt; can_step(words, view, shape));
    step_transfer(words, view, shape)
}

/// Makes the steps of a row. A transfer is begun where its announcement is the next step.
fn make_row(rt: &impl Abort, shape: &Shape, words: &mut [u64], view: &mut TransferView, row: &Row) {
    let (kind, place, tag, values) = *row;
    assert!(rt; tag < 100 && place < 100);
    for (offset, value) in values.iter().enumerate() {
        assert!(rt; *value < 1 << 24);
        let word = Tagged::pack(tag, *value);
        if kind == Kind::K1 {
            view.begin(Announced::read(word).wish);
        }
        let made = step(rt, shape, words, view);
        let after = words.get(place as usize + offset).copied();
        assert_eq!(rt; (made, after), (kind, Some(word)), "{place} {offset}");
    }
}

#[test]
fn opening_words_of_a_small_shape(rt: HostRuntime) -> Result<(), Fail> {
    let shape = Shape::new(1, 10, 0)?;
    let words = opening_words(rt.alloc(), &shape)?;
    assert_eq!(rt; words.len(), 64);
    assert_eq!(rt;
        [
            words[0], words[14], words[21], words[24], words[26], words[27]
        ],
        [16777218, 8, 36, 2, 4, 0]
    );
    Ok(())
}

#[test]
fn a_take_alone(rt: HostRuntime) -> Result<(), Fail> {
    let shape = Shape::new(2, 6, 0)?;
    let mut words = opening_words(rt.alloc(), &shape)?;
    let mut view = TransferView::open(0);
    let rows: [Row; 10] = [
        (Kind::K1, 1, 1, &[0]),
        (Kind::K2, 0, 1, &[4]),
        (Kind::K3, 27, 1, &[2, 0, 0, 0, 0, 0]),
        (Kind::K6, 1, 1, &[0]),
        (Kind::K7, 34, 0, &[30]),
        (Kind::K6, 2, 0, &[0]),
        (Kind::K8, 3, 2, &[1, 0, 0, 0, 8388639, 0]),
        (Kind::K9, 0, 2, &[0]),
        (Kind::K10, 0, 2, &[0]),
        (Kind::K11, 7, 2, &[8388639]),
    ];
    for row in &rows {
        make_row(&rt, &shape, &mut words, &mut view, row);
    }
    assert_eq!(rt; view.answer, Reply::Took(30));
    Ok(())
}
