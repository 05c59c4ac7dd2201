// The mathematics of the search for a cuckoo path: a queue of slots in three lists, breadth first. It
// holds no running code.
#![tactic(auto)]
