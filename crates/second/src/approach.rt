// What the height is to reach within a second, and whether it does.

ghost use Rattle.std.specs.Prelude.{◌≡◌};
ghost use Rattle.limits.specs.Limits.{max_closing_speed};
ghost use Rattle.path.specs.declared.Side.TheVariants.{Lower};
ghost use Rattle.path.specs.inner.Sizes.{InReach};
ghost use Rattle.flight.specs.inner.Parts.{Proper, DivisorWithin};
ghost use Rattle.flight.specs.inner.Tests.{reaches_at, tops, reaches};
ghost use Rattle.second.specs.inner.SecondSizes.{ApproachSizes};

use flight::Part;

// An edge to reach, measured from the height at the second's first instant, and the quadratic that is to reach it, 2·v·τ + g·τ². (It holds no Motion: it has
// the distance of the edge in place of the height, and so other sizes.)
#[derive(Clone, Copy)]
pub struct Approach {
    pub edge: i64,
    pub speed: i64,
    pub acceleration: i64,
    pub ghost sizes: { ApproachSizes edge speed acceleration },
}

impl Approach {
    // Is it reached at x/y?
    fn reaches_at(self, x: u64, y: u64) -> bool
        requires { InReach Lower x y }
        ensures { result ≡ reaches_at self.edge self.speed self.acceleration x y }
    {
        let edge = self.edge;
        let v = self.speed;
        let g = self.acceleration;
        let x = x as i64;
        let y = y as i64;
        edge * y * y <= 2 * v * x * y + g * x * x
    }

    // Is there a top, x/y or later, that reaches it?
    fn tops(self, x: u64, y: u64) -> bool
        requires { InReach Lower x y }
        ensures { result ≡ tops self.edge self.speed self.acceleration x y }
    {
        let edge = self.edge;
        let v = self.speed;
        let g = self.acceleration;
        let x = x as i64;
        let y = y as i64;
        (g < 0) & ((0 <= v * y + g * x) & (0 <= v * v + g * edge))
    }

    // On a part: at an end that is of the part, or at a top between. The second's own end is not of it: what is reached there alone is not reached.
    pub fn reaches(self, part: Part) -> bool
        requires proper { Proper part }
        requires divisor_within { DivisorWithin max_closing_speed part }
        ensures { result ≡ reaches self.edge self.speed self.acceleration part }
    {
        let edge = self.edge;
        let v = self.speed;
        let g = self.acceleration;
        match part {
            Part::Nowhere => false,
            Part::FromTo(x, z, y) => {
                let first = self.reaches_at(x, y);
                let last = self.reaches_at(z, y);
                let top = self.tops(x, y);
                first | (last | (top & (v * (y as i64) + g * (z as i64) <= 0)))
            }
            Part::From(x, y) => {
                let first = self.reaches_at(x, y);
                let top = self.tops(x, y);
                first | ((edge < 2 * v + g) | (top & (v + g < 0)))
            }
        }
    }
}
