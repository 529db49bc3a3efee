// The benchmark, beside what a program of another language makes of the same seeds.
use crate::calls::{calm, check_new, check_over, memory_disk};

const BENCH: &[&str] = &["bench", "1"];

const SUMMARY: &str = "requests 16000\nok 4020\nfd 32\nn 5952\ndata 5996\nerr 0\nbytes 1754064\n";

#[test]
fn a_workload_is_served_and_summed_up(rt: HostRuntime) {
    let clean = calm(&["check"], 0, "clean\n");
    let calls = [calm(BENCH, 0, SUMMARY), clean, calm(BENCH, 0, SUMMARY)];
    check_new(&rt, 32_768, &calls);
}

#[test]
fn a_fault_of_formatting_is_told(rt: HostRuntime) {
    let zeros = check_new(&rt, 32_768, &[]);
    let disk = memory_disk(&rt, 32_768, zeros.bytes.as_slice(), &[0]);
    check_over(&rt, &calm(BENCH, 4, "ufs: device fault 1\n"), disk);
}
