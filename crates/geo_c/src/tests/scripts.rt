// A script that is answered whole.
use crate::script::geo_answer_script;
use crate::status::{OK, TOO_LONG};
use plane::MAX_SCRIPT;
use std::process::Abort;
use std::test::Fail;

#[test]
fn a_script(rt: HostRuntime) -> Result<(), Fail> {
    let script = b"polygon,0,0,4,0,4,2,2,2,2,4,0,4\npath,1,4,4,1\n";
    let mut needed = 7;
    let mut out = [b'?'; 36];
    assert_eq!(rt;
        geo_answer_script(rt.alloc(), script, &mut out, &mut needed),
        OK
    );
    assert_eq!(rt; needed, 29);
    assert_eq!(rt;
        &out[..],
        b"polygon,6\npath,3,1,4,2,2,4,1\n???????".as_slice()
    );
    let mut short = [b'?'; 9];
    assert_eq!(rt;
        geo_answer_script(rt.alloc(), script, &mut short, &mut needed),
        OK
    );
    assert_eq!(rt; needed, 29);
    assert_eq!(rt; &short[..], b"polygon,6".as_slice());
    let longer = vec![in rt.alloc(); b'\n'; MAX_SCRIPT + 1]?;
    assert_eq!(rt;
        geo_answer_script(rt.alloc(), &longer, &mut short, &mut needed),
        TOO_LONG
    );
    assert_eq!(rt; needed, 29);
    Ok(())
}
