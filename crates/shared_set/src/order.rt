//! The order of items, and what is looked for among them.
ghost use Rattle.std.specs.Prelude.{◌≡◌, false};
ghost use Rattle.std.specs.Cmp.{IsTotalOrder};
ghost use Rattle.std.specs.Ordering.{is_gt};
ghost use Rattle.std.specs.declared.cmp.Ordering as order;
ghost use Rattle.std.specs.declared.cmp.Ordering.TheVariants.{Less};

use std::cmp::Ordering;

/// Items that stand in an order.
pub trait Ranked {
    /// How two items compare.
    ghost rank: { Self → Self → order.Ordering };

    /// How the item compares with another.
    fn rank(&self, other: &Self) -> Ordering
        ensures { result ≡ rank self.now other.now };

    ghost total: { IsTotalOrder rank };
}

/// What is looked for among items.
pub trait Seek<T: Ranked> {
    /// How it compares with an item.
    ghost side: { Self → T → order.Ordering };

    /// How it compares with an item.
    fn side(&self, item: &T) -> Ordering
        ensures { result ≡ side self.now item.now };

    // It is less than each item above one that isn't less than it.
    ghost upward: { (sought : Self) (a b : T) → is_gt (side sought a) ≡ false → T.rank a b ≡ Less → side sought b ≡ Less };
}
