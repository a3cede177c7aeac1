//! Scripts that are known byte by byte, or by their length.
use bulk_script::{bulk_script, request_count};
use script::read;
use std::alloc::Global;

const ONE: &[u8] = b"put src/BUCK 406\n\
export_file(name = \"s0\")\nexport_file(name = \"s1\")\nexport_file(name = \"s2\")\nexport_file(name = \"s3\")\n\
export_file(name = \"s4\")\nexport_file(name = \"s5\")\nexport_file(name = \"s6\")\nexport_file(name = \"s7\")\n\
export_file(name = \"s8\")\nexport_file(name = \"s9\")\nexport_file(name = \"s10\")\nexport_file(name = \"s11\")\n\
export_file(name = \"s12\")\nexport_file(name = \"s13\")\nexport_file(name = \"s14\")\nexport_file(name = \"s15\")\n\n\
put src/s0 1\n0\nput src/s1 1\n1\nput src/s2 1\n2\nput src/s3 1\n3\nput src/s4 1\n4\nput src/s5 1\n5\nput src/s6 1\n6\nput src/s7 1\n7\n\
put src/s8 1\n8\nput src/s9 1\n9\nput src/s10 2\n10\nput src/s11 2\n11\nput src/s12 2\n12\nput src/s13 2\n13\nput src/s14 2\n14\nput src/s15 2\n15\n\
put p0/BUCK 39\nwrite_file(name = \"t0\", content = \"0\")\n\n\
commit\nopen a\nask a a0 //p0:t0\nput src/s0 1\nx\ncommit\nopen b\nask b b0 //p0:t0\n";

/// Whether this is the script of so many targets.
fn is_bulk(alloc: Global, targets: u32, text: &[u8]) -> bool {
    match bulk_script(alloc, targets) {
        Ok(script) => script.as_slice() == text,
        Err(_) => false,
    }
}

#[test]
fn one_target(rt: HostRuntime) {
    assert!(rt; is_bulk(rt.alloc(), 1, ONE));
    assert!(rt; request_count(1) == 2);
}

/// How many bytes the script of so many targets has, and how many lines.
fn sizes(alloc: Global, targets: u32) -> Option<(usize, usize)> {
    match bulk_script(alloc, targets) {
        Ok(script) => Some((script.len(), line_count(alloc, &script)?)),
        Err(_) => None,
    }
}

fn line_count(alloc: Global, text: &[u8]) -> Option<usize> {
    match read(alloc, text) {
        Ok(script) => Some(script.lines().len()),
        Err(_) => None,
    }
}

#[test]
fn two_packages_are_read(rt: HostRuntime) {
    assert!(rt; sizes(rt.alloc(), 101) == Some((8_090, 46)));
    assert!(rt; request_count(101) == 22);
}
