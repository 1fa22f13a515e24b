ghost use Rattle.std.specs.Prelude.{◌≡◌, ◌≤◌, FitsSigned, SomeIff};
ghost use Rattle.std.specs.Int.{w64};
ghost use Rattle.pq_gate.specs.declared.ring.Ring.{Ring};
ghost use Rattle.pq_gate.specs.Ring.{plus, root, turned, FitsI64};

/// An element a + bω + cω² + dω³ of the ring that the entries of Clifford+T matrices lie in, over
/// powers of √2. Here ω is e^(iπ/4), an eighth root of unity, so ω⁴ = −1, and √2 is 0, 1, 0, −1.
#[derive(Clone, Copy, Debug, PartialEq, Eq)]
pub struct Ring {
    pub a: i64,
    pub b: i64,
    pub c: i64,
    pub d: i64,
}

impl Ring {
    /// The sum. None exactly where one of its coefficients lies outside i64.
    pub fn checked_add(self, other: Ring) -> Option<Ring>
        ensures { SomeIff result (FitsI64 (plus self other)) (plus self other) }
    {
        of_coefficients(
            self.a.checked_add(other.a),
            self.b.checked_add(other.b),
            self.c.checked_add(other.c),
            self.d.checked_add(other.d),
        )
    }

    /// ω^k times the element, for k from 0 to 7. None exactly where a coefficient of the result lies
    /// outside i64.
    pub fn checked_omega(self, k: u8) -> Option<Ring>
        requires { k ≤ 7 }
        ensures { SomeIff result (FitsI64 (turned k self)) (turned k self) }
    {
        let Ring { a, b, c, d } = self;
        match k {
            0 => Some(self),
            1 => of_coefficients(d.checked_neg(), Some(a), Some(b), Some(c)),
            2 => of_coefficients(c.checked_neg(), d.checked_neg(), Some(a), Some(b)),
            3 => of_coefficients(b.checked_neg(), c.checked_neg(), d.checked_neg(), Some(a)),
            4 => of_coefficients(
                a.checked_neg(),
                b.checked_neg(),
                c.checked_neg(),
                d.checked_neg(),
            ),
            5 => of_coefficients(Some(d), a.checked_neg(), b.checked_neg(), c.checked_neg()),
            6 => of_coefficients(Some(c), Some(d), a.checked_neg(), b.checked_neg()),
            _ => of_coefficients(Some(b), Some(c), Some(d), a.checked_neg()),
        }
    }

    /// √2 times the element: b − d, a + c, b + d, c − a. None exactly where one of these lies
    /// outside i64.
    pub fn times_root(self) -> Option<Ring>
        ensures { SomeIff result (FitsI64 (root self)) (root self) }
    {
        of_coefficients(
            self.b.checked_sub(self.d),
            self.a.checked_add(self.c),
            self.b.checked_add(self.d),
            self.c.checked_sub(self.a),
        )
    }
}

// the element with these coefficients, if each is there
fn of_coefficients(a: Option<i64>, b: Option<i64>, c: Option<i64>, d: Option<i64>) -> Option<Ring>
    ensures { (r : Ring) → SomeIff a (FitsSigned w64 r.a) r.a → SomeIff b (FitsSigned w64 r.b) r.b →
        SomeIff c (FitsSigned w64 r.c) r.c → SomeIff d (FitsSigned w64 r.d) r.d → SomeIff result (FitsI64 r) r }
{
    Some(Ring {
        a: a?,
        b: b?,
        c: c?,
        d: d?,
    })
}

#[cfg(test)]
mod tests {
    use super::*;
    use std::process::Abort;

    const MIN: i64 = i64::MIN;

    const MAX: i64 = i64::MAX;

    fn element(a: i64, b: i64, c: i64, d: i64) -> Ring {
        Ring { a, b, c, d }
    }

    fn root_is(rt: &impl Abort, element: Ring, expected: Option<Ring>) {
        assert_eq!(rt; element.times_root(), expected);
    }

    #[test]
    fn times_root_is_exact_up_to_the_ends(rt: HostRuntime) {
        root_is(&rt, element(1, 0, 0, 0), Some(element(0, 1, 0, -1)));
        root_is(&rt, element(0, 1, 0, -1), Some(element(2, 0, 0, 0)));
        root_is(&rt, element(0, MAX, 0, -1), None);
        root_is(&rt, element(0, MAX, 0, 0), Some(element(MAX, 0, MAX, 0)));
        root_is(&rt, element(0, MIN, 0, 0), Some(element(MIN, 0, MIN, 0)));
        root_is(
            &rt,
            element(0, -1, 0, MAX),
            Some(element(MIN, 0, MAX - 1, 0)),
        );
        root_is(
            &rt,
            element(MAX, 0, -1, 0),
            Some(element(0, MAX - 1, 0, MIN)),
        );
        root_is(&rt, element(0, 0, 0, MIN), None);
        root_is(&rt, element(MIN, 0, 0, 0), None);
        root_is(&rt, element(MAX, 0, 1, 0), None);
        root_is(&rt, element(0, MIN, 0, -1), None);
    }

    fn sum_is(rt: &impl Abort, first: Ring, second: Ring, expected: Option<Ring>) {
        assert_eq!(rt; first.checked_add(second), expected);
        assert_eq!(rt; second.checked_add(first), expected);
    }

    #[test]
    fn checked_add_is_exact_up_to_the_ends(rt: HostRuntime) {
        sum_is(
            &rt,
            element(1, 2, 3, 4),
            element(10, 20, 30, 40),
            Some(element(11, 22, 33, 44)),
        );
        sum_is(
            &rt,
            element(MAX, MIN, MAX, MIN),
            element(0, 0, MIN, MAX),
            Some(element(MAX, MIN, -1, -1)),
        );
        sum_is(&rt, element(MAX, 0, 0, 0), element(1, 0, 0, 0), None);
        sum_is(&rt, element(0, MIN, 0, 0), element(0, -1, 0, 0), None);
        sum_is(&rt, element(0, 0, MAX, 0), element(0, 0, MAX, 0), None);
        sum_is(&rt, element(0, 0, 0, MIN), element(0, 0, 0, MIN), None);
    }

    fn turned_is(rt: &impl Abort, element: Ring, k: u8, expected: Option<Ring>)
        requires { k ≤ 7 }
    {
        assert_eq!(rt; element.checked_omega(k), expected);
    }

    #[test]
    fn checked_omega_turns_by_eighths(rt: HostRuntime) {
        let start = element(1, 2, 3, 4);
        turned_is(&rt, start, 0, Some(start));
        turned_is(&rt, start, 1, Some(element(-4, 1, 2, 3)));
        turned_is(&rt, start, 2, Some(element(-3, -4, 1, 2)));
        turned_is(&rt, start, 3, Some(element(-2, -3, -4, 1)));
        turned_is(&rt, start, 4, Some(element(-1, -2, -3, -4)));
        turned_is(&rt, start, 5, Some(element(4, -1, -2, -3)));
        turned_is(&rt, start, 6, Some(element(3, 4, -1, -2)));
        turned_is(&rt, start, 7, Some(element(2, 3, 4, -1)));
    }

    #[test]
    fn checked_omega_keeps_the_least_where_it_fits(rt: HostRuntime) {
        let first = element(MIN, 0, 0, 0);
        turned_is(&rt, first, 0, Some(first));
        turned_is(&rt, first, 3, Some(element(0, 0, 0, MIN)));
        turned_is(&rt, first, 4, None);
        turned_is(&rt, first, 7, None);
        let last = element(0, 0, 0, MIN);
        turned_is(&rt, last, 1, None);
        turned_is(&rt, last, 4, None);
        turned_is(&rt, last, 5, Some(element(MIN, 0, 0, 0)));
        turned_is(&rt, last, 7, Some(element(0, 0, MIN, 0)));
        turned_is(
            &rt,
            element(MAX, MAX, MAX, MAX),
            4,
            Some(element(-MAX, -MAX, -MAX, -MAX)),
        );
    }
}
