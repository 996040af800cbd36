// Worked figures and laws: proved of the definitions that the formulas answer.
ghost use Rattle.coupons.specs.Figures.{WorkedCoupons, CouponLaws};

// The worked coupons and the worked alignment come out of their definitions.
pub fn worked_coupons()
    ensures { WorkedCoupons }
{}

// What rounding means, and that compounding never makes a factor fall.
pub fn coupon_laws()
    ensures { CouponLaws }
{}
