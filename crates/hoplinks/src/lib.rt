// Which junctions every path between two branches of the forest meets: the hoplinks, marked by depth.
#![tactic(auto)]

pub mod hoplinks;
