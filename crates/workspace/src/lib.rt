// The tables that a sheet's nodes are clocked, listed and planned in, node after node: they are made once a call, and lent from above.
#![tactic(auto)]

// Tables for the clocks of names, for what is found in equations, for chains and their order, and for the clocks of sites. Planning needs
// sites alone: the clocks with a flag go into `table` then, those with a first-tick flag into `env`, the declared types of names stand in
// the rows of chains, and what becomes of tokens in their order.
// Stays (fixed memory): slices of arrays on the stack of `questions`, in two sizes: as arrays, each use had four const parameters.
#[derive(Drop)]
pub struct Working<'a> {
    pub env: &'a mut [u32],
    pub table: &'a mut [u32],
    pub rows: &'a mut [u32],
    pub chain: &'a mut [u32],
    pub sites: &'a mut [u32],
}
