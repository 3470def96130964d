//! One list of a foreach.
ghost use Rattle.std.specs.Prelude.{◌<◌, ◌^◌, length};

/// One variable at least and the items that they take, which are fewer than turns can be counted.
#[derive(Drop)]
pub(crate) struct Items {
    pub(crate) names: Vec<String>,
    pub(crate) items: Vec<String>,
    ghost named: { 0 < length names.items },
    ghost few: { length items.items < 2 ^ 64 },
}
