// What a product leaves to an operand, line by line, and the calls that take memory.
ghost use Rattle.std.specs.Prelude.{IsTrue};
ghost use Rattle.dyadic.specs.Views.{ext_of};
ghost use Rattle.ival.specs.Proper.{is_low, is_high};

use dyadic::{Dy, Ext, pow2};
use ival::{Domain, Ival, Range, Rows, Space, Truths};
use std::test::Fail;

// From a number to another.
fn span(low: Ext, high: Ext) -> Ival
    requires low { IsTrue (is_low (ext_of low)) }
    requires high { IsTrue (is_high (ext_of high)) }
{
    Ival::new(low, high)
}

#[test]
fn products_leave_operands(rt: HostRuntime) {
    let nought = Ext::Fin(Dy::ZERO);
    let one = Ext::Fin(pow2(0));
    let two = Ext::Fin(pow2(1));
    let four = Ext::Fin(pow2(2));
    let eight = Ext::Fin(pow2(3));
    let half = Ext::Fin(pow2(-1));
    let above = span(four, eight);
    let below = span(eight.neg(), four.neg());
    // 0 not in the other operand
    assert_eq!(rt; above.inv_mul(span(one, two)), span(two, eight));
    assert_eq!(rt;
        above.inv_mul(span(two.neg(), one.neg())),
        span(eight.neg(), two.neg())
    );
    assert_eq!(rt; below.inv_mul(span(one, two)), span(eight.neg(), two.neg()));
    assert_eq!(rt;
        span(four.neg(), eight).inv_mul(span(one, two)),
        span(four.neg(), eight)
    );
    assert_eq!(rt; above.inv_mul(span(two, Ext::PosInf)), span(nought, four));
    // 0 in both
    assert_eq!(rt;
        span(one.neg(), one).inv_mul(span(nought, two)),
        Ival::everything()
    );
    // the other operand is 0
    assert_eq!(rt; above.inv_mul(span(nought, nought)), Ival::Empty);
    // from 0 up
    assert_eq!(rt; above.inv_mul(span(nought, eight)), span(half, Ext::PosInf));
    assert_eq!(rt;
        below.inv_mul(span(nought, eight)),
        span(Ext::NegInf, half.neg())
    );
    // up to 0
    assert_eq!(rt;
        above.inv_mul(span(eight.neg(), nought)),
        span(Ext::NegInf, half.neg())
    );
    assert_eq!(rt;
        below.inv_mul(span(eight.neg(), nought)),
        span(half, Ext::PosInf)
    );
    // 0 strictly inside the other operand
    assert_eq!(rt; above.inv_mul(span(one.neg(), one)), Ival::everything());
    // an empty other operand
    assert_eq!(rt; above.inv_mul(Ival::Empty), Ival::Empty);
}

#[test]
fn rows_are_made(rt: HostRuntime) -> Result<(), Fail> {
    let mut rows = Rows::new(rt.alloc(), 3)?;
    assert_eq!(rt; rows.len(), 3);
    rows.set(1, Ival::everything());
    rows.mark(2);
    assert_eq!(rt; rows.get(1), Ival::everything());
    assert_eq!(rt; rows.get(2), Ival::Empty);
    assert!(rt; rows.marked(2));
    assert_eq!(rt; rows.next_marked_above(0), Some(2));
    assert_eq!(rt; rows.next_marked_below(3), Some(2));
    rows.mark(1);
    rows.unmark(2);
    assert_eq!(rt; rows.next_marked_below(3), Some(1));
    rows.clear_marks();
    assert!(rt; !rows.marked(1));
    Ok(())
}

#[test]
fn marks_are_found_word_by_word(rt: HostRuntime) -> Result<(), Fail> {
    let mut rows = Rows::new(rt.alloc(), 200)?;
    assert_eq!(rt; rows.next_marked_below(200), None);
    assert_eq!(rt; rows.next_marked_above(0), None);
    for place in [0, 63, 64, 130, 199] {
        if place < rows.len() {
            rows.mark(place);
        }
    }
    if rows.len() == 200 {
        assert_eq!(rt; rows.next_marked_below(200), Some(199));
        assert_eq!(rt; rows.next_marked_below(199), Some(130));
        assert_eq!(rt; rows.next_marked_below(130), Some(64));
        assert_eq!(rt; rows.next_marked_below(64), Some(63));
        assert_eq!(rt; rows.next_marked_below(63), Some(0));
        assert_eq!(rt; rows.next_marked_below(0), None);
        assert_eq!(rt; rows.next_marked_above(0), Some(63));
        assert_eq!(rt; rows.next_marked_above(63), Some(64));
        assert_eq!(rt; rows.next_marked_above(64), Some(130));
        assert_eq!(rt; rows.next_marked_above(130), Some(199));
        assert_eq!(rt; rows.next_marked_above(199), None);
    }
    Ok(())
}

#[test]
fn spaces_are_made(rt: HostRuntime) -> Result<(), Fail> {
    let mut space = Space::with_capacity(rt.alloc(), 3)?;
    space.push(Domain::Bool(Truths::Either));
    let unit = Range::between(Dy::ZERO, pow2(0)).ok_or("crossed")?;
    space.push(Domain::Real(unit));
    assert_eq!(rt; space.len(), 2);
    assert_eq!(rt; space.widest(), Some(1));
    assert_eq!(rt; space.interval(0), Ival::Empty);
    assert_eq!(rt; space.interval(1).range(), Some(unit));
    assert_eq!(rt; Ival::everything().range(), None);
    assert!(rt; !space.set_real(1, unit));
    assert!(rt; space.set_real(1, Range::between(Dy::ZERO, pow2(1)).ok_or("crossed")?));
    let mut copy = space.try_clone(rt.alloc())?;
    assert_eq!(rt; copy.len(), 2);
    assert!(rt; copy.within(&space));
    space.middle(&mut copy);
    assert_eq!(rt; copy.get(0), Domain::Bool(Truths::False));
    assert_eq!(rt; copy.widest(), None);
    assert!(rt; !space.within(&copy));
    Ok(())
}
