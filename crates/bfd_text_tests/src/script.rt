//! The one spelling of scripts.
use bfd_script::read;
use bfd_serve::spelling::write;
use std::alloc::Global;

/// Whether the text is a script, and this is its one spelling.
fn is_spelled(alloc: Global, text: &str, want: &str) -> bool {
    let Ok(script) = read(alloc, text.as_bytes(), false) else {
        return false;
    };
    match write(alloc, &script) {
        Ok(bytes) => bytes.as_slice() == want.as_bytes(),
        Err(_) => false,
    }
}

#[test]
fn one_spelling(rt: HostRuntime) {
    let cases = [
        (
            "bfd 1\n\
            p2p 9 multi 65535 20010DB800000000000000000000000a 20010db8000000000000000000000001 active 10000 60000000 255 0 4294967295\n\
            p2p 5 single 1 192.0.2.1 192.0.2.254 passive 1000000 50000 3 0 0\n\
            auth 5 4 7 0AfF\n\
            auth 9 1 255 70617373\n\
            run\n\
            rx 1500 single 1 192.0.2.254 192.0.2.1 255 20C0\n\
            tick 3002\n\
            cmd 3002000 9 disable\n\
            cmd 3002000 5 rx 250000\n\
            show 3002001 5\n\
            end",
            "bfd 1\n\
            p2p 5 single 1 192.0.2.1 192.0.2.254 passive 1000000 50000 3 0 0\n\
            auth 5 4 7 0aff\n\
            p2p 9 multi 65535 20010db800000000000000000000000a 20010db8000000000000000000000001 active 10000 60000000 255 0 4294967295\n\
            auth 9 1 255 70617373\n\
            run\n\
            rx 1500 single 1 192.0.2.254 192.0.2.1 255 20c0\n\
            tick 3002\n\
            cmd 3002000 9 disable\n\
            cmd 3002000 5 rx 250000\n\
            show 3002001 5\n\
            end\n",
        ),
        (
            "bfd 2\n\
            p2p 9 single 1 192.0.2.1 192.0.2.9 active 10000 10000 3 0 0\n\
            auth 9 1 8 61\n\
            p2p 5 single 1 192.0.2.1 192.0.2.5 active 10000 10000 3 0 0\n\
            auth 5 5 8 62\n\
            key 9 7 6A\n\
            key 5 9 64\n\
            key 5 7 65\n\
            run\nend\n",
            "bfd 2\n\
            p2p 5 single 1 192.0.2.1 192.0.2.5 active 10000 10000 3 0 0\n\
            auth 5 5 8 62\n\
            key 5 9 64\n\
            key 5 7 65\n\
            p2p 9 single 1 192.0.2.1 192.0.2.9 active 10000 10000 3 0 0\n\
            auth 9 1 8 61\n\
            key 9 7 6a\n\
            run\nend\n",
        ),
        (
            "bfd 1\n\
            reflector 900 50000 up\n\
            tail 30 77 1 239.0.0.1 10.0.0.2\n\
            reflector 31 60000000 admin\n\
            head 40 1 10.0.0.1 239.0.0.1 100000 3 4294967295\n\
            sbfd 5 900 65535 10.0.0.1 20010DB8000000000000000000000009 10000 255 0\n\
            p2p 6 single 1 10.0.0.1 10.0.0.6 passive 1000000 1000000 3 50000 0\n\
            run\n\
            rx 1500 echo 1 10.0.0.1 10.0.0.1 255 42464465000000060000000000000000\n\
            rx 1500 sbfd 1 10.0.0.9 10.0.0.1 255 -\n\
            rx 1500 answer 1 10.0.0.9 10.0.0.1 255 -\n\
            cmd 1500 6 echo 0\n\
            end",
            "bfd 1\n\
            sbfd 5 900 65535 10.0.0.1 20010db8000000000000000000000009 10000 255 0\n\
            p2p 6 single 1 10.0.0.1 10.0.0.6 passive 1000000 1000000 3 50000 0\n\
            tail 30 77 1 239.0.0.1 10.0.0.2\n\
            head 40 1 10.0.0.1 239.0.0.1 100000 3 4294967295\n\
            reflector 31 60000000 admin\n\
            reflector 900 50000 up\n\
            run\n\
            rx 1500 echo 1 10.0.0.1 10.0.0.1 255 42464465000000060000000000000000\n\
            rx 1500 sbfd 1 10.0.0.9 10.0.0.1 255 -\n\
            rx 1500 answer 1 10.0.0.9 10.0.0.1 255 -\n\
            cmd 1500 6 echo 0\n\
            end\n",
        ),
        ("bfd 2\nrun\nend\n", "bfd 1\nrun\nend\n"),
    ];
    for (text, want) in cases {
        assert!(rt; is_spelled(rt.alloc(), text, want));
    }
}
