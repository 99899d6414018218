pub fn is_accepted(s: &[u8], nums: &mut [u64], dens: &mut [u64], places: &mut [u64]) -> bool {
    calculation::calculate(s, nums, dens, places).is_ok()
}
