// The lists of a world.
use crate::entry::Entry;
use crate::listed::RequirementList;
use crate::order::Order;
use swreq_lowering::Query;

/// The signatures in written order, the requirements of the protocols by rank, the signatures with their own requirements, and the queries.
#[derive(Drop)]
pub struct WorldLists {
    pub order: Box<Order>,
    pub requirements: Vec<RequirementList>,
    pub signatures: Vec<Entry>,
    pub queries: Vec<Query>,
}
