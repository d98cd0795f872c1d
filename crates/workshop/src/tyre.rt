// Which tyre: the truck's number, then the tyre's number on that truck.
#[derive(Clone, Copy, PartialEq, Eq, PartialOrd, Ord, Debug)]
pub struct TyreId {
    pub truck: u16,
    pub tyre: u16,
}
