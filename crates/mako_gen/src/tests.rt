use super::*;
use mako_script::print;
use std::test::Fail;

/// The script of seed 1 with one drawn command for each mutator.
const FIRST: &[u8] =
    b"mako 1\nservers 4\ntablets 2\nentries 32\nwords 128\nspare 1\nring 4\nroots 8\ncycles 1000\ngens 1000000\nboard 8\nmutator\nnew va 2\nnew vb 2\nnew vc 2\nnew vd 2\nnew ve 2\nnew vf 2\nput vc 1 vc\nend\nmutator\nnew va 2\nnew vb 2\nnew vc 2\nnew vd 2\nnew ve 2\nnew vf 2\nput board 0 va\nend\nmutator\nnew va 2\nnew vb 2\nnew vc 2\nnew vd 2\nnew ve 2\nnew vf 2\nnew vc 4\nend\nmutator\nnew va 2\nnew vb 2\nnew vc 2\nnew vd 2\nnew ve 2\nnew vf 2\nnew vc 1\nend\n";

#[test]
fn makes_the_first_workload(rt: HostRuntime) -> Result<(), Fail> {
    let alloc = rt.alloc();
    let Ok(script) = make(alloc, 1, 1) else {
        return Err("no memory".into());
    };
    let Ok(text) = print(alloc, &script) else {
        return Err("no memory".into());
    };
    assert_eq!(rt; text.as_slice(), FIRST);
    Ok(())
}
