pub fn is_settled_after(t: &mut [u64; 9153], s: &[u8]) -> bool {
    machine::run(t, s);
    machine::settled(t).unwrap_or(false)
}
