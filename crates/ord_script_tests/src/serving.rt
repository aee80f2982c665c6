//! Scripts through `serve`, from a program's view.
use ord_script::{FaultKind, ScriptEnd, Watched, serve};
use std::alloc::Global;

/// Scripts that end without a fault, each with its answer.
const ANSWERS: &[(&[u8], &str)] = &[
    // the commands
    (
        b"insert 50 1\ninsert 30 2\nfind 30\nlist\n",
        "new 1.2\nnew 2.2\nat 2.2\nlist 2.2=30:2 1.2=50:1\n",
    ),
    (b"", ""),
    (b"list", "list\n"),
    (
        b"insert 5 1\ninsert 5 2\nlist\n",
        "new 1.2\nreplaced 1.2 5:1\nlist 1.2=5:2\n",
    ),
    (
        b"find 3\ninsert 3 4\nfind 2\nfind 3\nfind 4\n",
        "none\nnew 1.2\nnone\nat 1.2\nnone\n",
    ),
    (
        b"insert 2 0\ninsert -1 0\ninsert 3 0\ninsert 1 0\ninsert 0 0\nfind 1\nlist\n",
        "new 1.2\nnew 2.2\nnew 3.2\nnew 4.2\nnew 5.2\nat 4.2\nlist 2.2=-1:0 5.2=0:0 4.2=1:0 1.2=2:0 3.2=3:0\n",
    ),
    // the tree, and the numbers of the arena
    (
        b"insert 50 0\ninsert 30 0\ninsert 70 0\ninsert 60 0\ninsert 10 0\nranks\nvisits 53\nneighbours 4\nstats\n",
        "new 1.2\nnew 2.2\nnew 3.2\nnew 4.2\nnew 5.2\nranks 1 2 3 1 2\nvisits 3\nneighbours 1 3\nlen 5 capacity 8 generation 2 max none\n",
    ),
    (
        b"insert 1 0\ninsert 2 0\ninsert 3 0\ninsert 4 0\ninsert 5 0\ninsert 6 0\ninsert 7 0\nranks\nvisits 4\nvisits 2\nvisits 7\nvisits 8\n",
        "new 1.2\nnew 2.2\nnew 3.2\nnew 4.2\nnew 5.2\nnew 6.2\nnew 7.2\nranks 1 2 1 3 1 2 1\nvisits 3\nvisits 3\nvisits 3\nvisits 3\n",
    ),
    (
        b"insert 50 5\ninsert 30 3\ninsert 70 7\nfirst\nlast\nget 1.2\nget 2.2\nget 3.2\nget 003.0002\n",
        "new 1.2\nnew 2.2\nnew 3.2\nat 2.2\nat 3.2\nitem 50:5\nitem 30:3\nitem 70:7\nitem 70:7\n",
    ),
    (
        b"insert 50 5\nget 1.1\nget 1.3\nget 0.2\nget 2.2\nget 4294967295.18446744073709551615\n",
        "new 1.2\nnone\nnone\nnone\nnone\nnone\n",
    ),
    (
        b"insert 50 0\ninsert 30 0\ninsert 70 0\nneighbours 1\nneighbours 2\nneighbours 3\nneighbours 4\nneighbours 0\nneighbours 4294967295\n",
        "new 1.2\nnew 2.2\nnew 3.2\nneighbours 2 3\nneighbours - 1\nneighbours 1 -\nnone\nnone\nnone\n",
    ),
    (
        b"insert 5 0\nneighbours 1\nfirst\nlast\nranks\nvisits 5\nvisits 6\nstats\n",
        "new 1.2\nneighbours - -\nat 1.2\nat 1.2\nranks 1\nvisits 1\nvisits 1\nlen 1 capacity 4 generation 2 max none\n",
    ),
    (
        b"first\nlast\nget 1.2\nneighbours 1\nlist\nranks\nvisits 0\nfind 0\nstats\n",
        "none\nnone\nnone\nnone\nlist\nranks\nvisits 0\nnone\nlen 0 capacity 0 generation 2 max none\n",
    ),
    // insertions by kind
    (
        b"max 2\ninsert 1 10\ninsert 2 20\nwithin 1 11\nwithin 3 30\ninsert 3 30\nlist\nmax 1\n",
        "ok\nnew 1.2\nnew 2.2\nreplaced 1.2 1:10\nrefused capacity\nrefused maximum\nlist 1.2=1:11 2.2=2:20\nrefused reduction\n",
    ),
    (
        b"before 1 5 0\ninsert 1 0\ninsert 2 0\ninsert 3 0\nempty 4 0\nbefore 2 9 0\ncheck\nlist\nfind 9\nvisits 9\nranks\n",
        "refused order\nnew 1.2\nnew 2.2\nnew 3.2\nrefused order\nnew 4.2\nincorrect ordering\nlist 1.2=1:0 4.2=9:0 2.2=2:0 3.2=3:0\nnone\nvisits 2\nranks 2 1 3 1\n",
    ),
    (
        b"nonhereditary 5 1\nnonhereditary 5 2\nnonhereditary 5 3\nnonhereditary 5 4\nlist\nranks\nfind 5\nvisits 5\n",
        "new 1.2\nnew 2.2\nnew 3.2\nnew 4.2\nlist 1.2=5:1 2.2=5:2 3.2=5:3 4.2=5:4\nranks 1 3 2 1\nat 1.2\nvisits 2\n",
    ),
    (
        b"nonhereditary 5 1\nnonhereditary 3 2\nnonhereditary 5 3\nnonhereditary 3 4\ninsert 5 9\nlist\nfind 3\n",
        "new 1.2\nnew 2.2\nnew 3.2\nnew 4.2\nreplaced 1.2 5:1\nlist 2.2=3:2 4.2=3:4 1.2=5:9 3.2=5:3\nat 2.2\n",
    ),
    (
        b"insert 50 0\ninsert 30 0\ninsert 70 0\ninsert 60 0\ninsert 10 0\nlinear 5 1 20 7\nnonhereditary-linear 4 2 60 8\nlist\nranks\nat 9 1 1\nat 3 71 5\n",
        "new 1.2\nnew 2.2\nnew 3.2\nnew 4.2\nnew 5.2\nnew 6.2\nnew 7.2\nlist 5.2=10:0 6.2=20:7 2.2=30:0 1.2=50:0 4.2=60:0 7.2=60:8 3.2=70:0\nranks 1 2 1 3 1 2 1\nrefused order\nreplaced 3.2 70:0\n",
    ),
    (
        b"within 1 0\nempty 1 5\nempty 1 6\nlinear 1 9 1 7\nnonhereditary-linear 0 0 1 8\nafter 1 0 9\nbefore 0 0 0\nafter 2 0 0\nat 1 4 4\nlist\n",
        "refused capacity\nnew 1.2\nrefused order\nreplaced 1.2 1:5\nnew 2.2\nnew 3.2\nrefused order\nnew 4.2\nreplaced 1.2 1:7\nlist 1.2=4:4 3.2=0:9 2.2=1:8 4.2=0:0\n",
    ),
    // the capacity
    (
        b"max 5\ninsert 1 0\ninsert 2 0\ninsert 3 0\ninsert 4 0\ninsert 5 0\ninsert 6 0\nstats\nreserve 6\nreserve 4294967295\n",
        "ok\nnew 1.2\nnew 2.2\nnew 3.2\nnew 4.2\nnew 5.2\nrefused maximum\nlen 5 capacity 5 generation 2 max 5\nrefused maximum\nrefused maximum\n",
    ),
    (
        b"reserve 3\nstats\nmax 2\nmax 3\ninsert 5 0\ninsert 6 0\nremove 1.2\nreserve 0\nstats\ninsert 7 0\nreserve 3\nstats\nlist\n",
        "ok\nlen 0 capacity 3 generation 2 max none\nrefused reduction\nok\nnew 1.2\nnew 2.2\nremoved 5:0\nok\nlen 1 capacity 2 generation 3 max 3\nnew 1.3\nok\nlen 2 capacity 3 generation 3 max 3\nlist 2.2=6:0 1.3=7:0\n",
    ),
    (
        b"max 18446744073709551615\nstats\nreserve 4294967295\nmax 0\ninsert 1 0\nreserve 18446744073709551615\n",
        "ok\nlen 0 capacity 0 generation 2 max 18446744073709551615\nrefused maximum\nok\nrefused maximum\nrefused maximum\n",
    ),
    // searches from a hint
    (
        b"insert 50 0\ninsert 30 0\ninsert 70 0\ninsert 60 0\ninsert 10 0\nsimilar 53\nsimilar 40\nsimilar-linear 2 3 40\nsimilar-linear 9 3 40\nfind-linear 2.2 3 40\nfind-linear 5.2 2 60\nfind-linear 2.9 3 40\n",
        "new 1.2\nnew 2.2\nnew 3.2\nnew 4.2\nnew 5.2\nsimilar 4.2 less\nsimilar 2.2 greater\nsimilar 1.2 less\nsimilar 2.2 greater\nnone\nat 4.2\nnone\n",
    ),
    (
        b"insert 50 0\ninsert 30 0\ninsert 70 0\ninsert 60 0\ninsert 10 0\nsimilar-linear 2 2 40\nsimilar-linear 2 1 40\nsimilar-linear 5 9 50\nsimilar-linear 5 1 5\nsimilar-linear 3 18446744073709551615 5\nfind-linear 5.2 0 60\n",
        "new 1.2\nnew 2.2\nnew 3.2\nnew 4.2\nnew 5.2\nsimilar 1.2 less\nsimilar 2.2 greater\nsimilar 1.2 equal\nsimilar 5.2 less\nsimilar 5.2 less\nat 4.2\n",
    ),
    (
        b"similar 1\nsimilar-linear 1 3 1\nfind-linear 1.2 3 1\ninsert 1 0\nsimilar 1\nsimilar -1\n",
        "none\nnone\nnone\nnew 1.2\nsimilar 1.2 equal\nsimilar 1.2 less\n",
    ),
    // removals and generations
    (
        b"insert 7 0\nremove 1.2\nremove 1.2\ninsert 7 1\nget 1.2\nget 1.3\nremove-index 0\n",
        "new 1.2\nremoved 7:0\ninvalid\nnew 1.3\nnone\nitem 7:1\ninvalid\n",
    ),
    (
        b"insert 7 0\ninvalidate 1.2\nget 1.2\ninsert 8 0\nclear\nstats\ninsert 1 0\n",
        "new 1.2\nnow 1.3\nnone\nnew 2.3\ncleared\nlen 0 capacity 4 generation 4 max none\nnew 1.4\n",
    ),
    (
        b"insert 50 0\ninsert 30 0\ninsert 70 0\ninsert 60 0\ninsert 10 0\nremove 1.2\nlist\nranks\nnext-generation\ninsert 50 3\nstats\n",
        "new 1.2\nnew 2.2\nnew 3.2\nnew 4.2\nnew 5.2\nremoved 50:0\nlist 5.2=10:0 2.2=30:0 4.2=60:0 3.2=70:0\nranks 1 3 1 2\nok\nnew 1.4\nlen 5 capacity 8 generation 4 max none\n",
    ),
    (
        b"insert 1 0\ninsert 2 0\ninsert 3 0\nset 2.2 9 5\nvisits 3\nfind 1\nremove 1.2\nranks\n",
        "new 1.2\nnew 2.2\nnew 3.2\nold 2:0\nvisits 2\nat 1.2\nremoved 1:0\nranks 2 1\n",
    ),
    (
        b"insert 1 5\ninsert 2 6\nremove-index 1\nremove-index 1\nremove-index 2\nremove-index 3\nlist\n",
        "new 1.2\nnew 2.2\nremoved 1.2 1:5\ninvalid\nremoved 2.2 2:6\ninvalid\nlist\n",
    ),
    (
        b"invalidate 1.2\nremove 1.2\nset 1.2 1 1\nremove-index 1\nclear\nnext-generation\nstats\ninsert 1 1\nset 1.3 1 2\nset 1.4 1 2\nlist\n",
        "invalid\ninvalid\nnone\ninvalid\ncleared\nok\nlen 0 capacity 0 generation 4 max none\nnew 1.4\nnone\nold 1:1\nlist 1.4=1:2\n",
    ),
    // rebuilds
    (
        b"insert 30 0\ninsert 10 0\ninsert 40 0\ninsert 20 0\nremove 3.2\ncompress 0\nlist\nranks\ncanonical 0\nlist\ncanonical 1\nlist\n",
        "new 1.2\nnew 2.2\nnew 3.2\nnew 4.2\nremoved 40:0\nok\nlist 2.4=10:0 3.4=20:0 1.4=30:0\nranks 1 3 1\nok\nlist 1.5=10:0 2.5=20:0 3.5=30:0\nok\nlist 1.2=10:0 2.2=20:0 3.2=30:0\n",
    ),
    (
        b"insert 1 0\ninsert 2 0\ninsert 3 0\ninsert 4 0\ninsert 5 0\ninsert 6 0\ninsert 7 0\ncanonical 0\nranks\nremove-index 1\nranks\nremove-index 3\nranks\n",
        "new 1.2\nnew 2.2\nnew 3.2\nnew 4.2\nnew 5.2\nnew 6.2\nnew 7.2\nok\nranks 1 3 1 4 1 3 1\nremoved 1.3 1:0\nranks 2 1 4 1 3 1\nremoved 3.3 3:0\nranks 1 3 1 2 1\n",
    ),
    (
        b"compress 00\nstats\ninsert 5 0\ncompress 01\nlist\nremove 1.2\ncompress 0\nstats\ninsert 6 0\n",
        "ok\nlen 0 capacity 0 generation 3 max none\nnew 1.3\nok\nlist 1.2=5:0\nremoved 5:0\nok\nlen 0 capacity 4 generation 4 max none\nnew 1.4\n",
    ),
    // drains, and the check of the order
    (
        b"insert 3 0\ninsert 1 0\ninsert 2 0\ndrain 2\nstats\n",
        "new 1.2\nnew 2.2\nnew 3.2\ndrained 2.2=1:0 3.2=2:0\nlen 0 capacity 4 generation 5 max none\n",
    ),
    (
        b"check\ninsert 2 5\ninsert 1 4\ncheck\ndrain 18446744073709551615\ninsert 3 6\ndrain 0\nlist\ndrain 1\nstats\n",
        "ok\nnew 1.2\nnew 2.2\nok\ndrained 2.2=1:4 1.2=2:5\nnew 1.5\ndrained\nlist\ndrained\nlen 0 capacity 4 generation 7 max none\n",
    ),
    (
        b"insert 1 0\ninsert 2 0\nset 1.2 2 9\ncheck\nset 1.2 9 0\ncheck\n",
        "new 1.2\nnew 2.2\nold 1:0\nok\nold 2:9\nincorrect ordering\n",
    ),
    // an entry moves to the place of another key, behind duplicates; a stale pointer moves nothing
    (
        b"insert 1 0\ninsert 2 0\ninsert 3 0\nrekey 1.2 9 5\nlist\nranks\nget 1.2\nfind 9\nfind 1\nrekey 1.3 0 0\nlist\n",
        "new 1.2\nnew 2.2\nnew 3.2\nold 1:0\nlist 2.2=2:0 3.2=3:0 1.2=9:5\nranks 1 2 1\nitem 9:5\nat 1.2\nnone\nnone\nlist 2.2=2:0 3.2=3:0 1.2=9:5\n",
    ),
    (
        b"insert 5 1\ninsert 7 2\nrekey 2.2 5 3\nlist\nrekey 1.2 5 4\nlist\nset 1.2 -9 0\ncheck\nrekey 1.2 -9 6\ncheck\nlist\n",
        "new 1.2\nnew 2.2\nold 7:2\nlist 1.2=5:1 2.2=5:3\nold 5:1\nlist 2.2=5:3 1.2=5:4\nold 5:4\nincorrect ordering\nold -9:0\nok\nlist 1.2=-9:6 2.2=5:3\n",
    ),
    // lines: CR before LF, and blank lines and comments, which are counted
    (b"insert 007 01\r\n", "new 1.2\n"),
    (b"\r\nlist\r\n", "list\n"),
    (b"#list\nlist\n\n", "list\n"),
    // words: spaces and tabs, and no other byte
    (b"\tinsert \t 7\t8 \n  list\t\n", "new 1.2\nlist 1.2=7:8\n"),
    // signs
    (b"insert -0 1\nlist\n", "new 1.2\nlist 1.2=0:1\n"),
    (b"insert -5 1\nfind 5\nfind -5\n", "new 1.2\nnone\nat 1.2\n"),
    // the range of a key and of a value, and leading zeros
    (
        b"insert 00000000000000000000000000000012 000000000000000000000000000000345\ninsert -00000000000000000000000000000012 0\nlist\n",
        "new 1.2\nnew 2.2\nlist 2.2=-12:0 1.2=12:345\n",
    ),
];

/// Scripts that end at a fault, each with its answer, the fault's line and its kind.
const FAULTS: &[(&[u8], &str, usize, FaultKind)] = &[
    // a fault ends the script
    (
        b"insert 1 1\nfnd 1\nlist\n",
        "new 1.2\nline 2: unknown command\n",
        2,
        FaultKind::UnknownCommand,
    ),
    (
        b"insert 50 1\ninsert 3",
        "new 1.2\nline 2: wrong arguments\n",
        2,
        FaultKind::WrongArguments,
    ),
    // lines: CR before LF, and blank lines and comments, which are counted
    (
        b"\n# x\nlist 1\n",
        "line 3: wrong arguments\n",
        3,
        FaultKind::WrongArguments,
    ),
    (
        b"\n\n \t \n#\n # fnd\nfnd",
        "line 6: unknown command\n",
        6,
        FaultKind::UnknownCommand,
    ),
    // the range of a key and of a value, and leading zeros
    (
        b"insert -9223372036854775808 18446744073709551615\nlist\ninsert 9223372036854775808 0\n",
        "new 1.2\nlist 1.2=-9223372036854775808:18446744073709551615\nline 3: bad number\n",
        3,
        FaultKind::BadNumber,
    ),
    (
        b"insert 9223372036854775807 0\nlist\ninsert -9223372036854775809 0\n",
        "new 1.2\nlist 1.2=9223372036854775807:0\nline 3: bad number\n",
        3,
        FaultKind::BadNumber,
    ),
];

/// Lines with a fault of this kind.
const BAD_LINES: &[(&[u8], FaultKind)] = &[
    // the tree, and the numbers of the arena
    (b"visits", FaultKind::WrongArguments),
    (b"get 1.2 3", FaultKind::WrongArguments),
    (b"first 1", FaultKind::WrongArguments),
    (b"last 1", FaultKind::WrongArguments),
    (b"neighbours", FaultKind::WrongArguments),
    (b"ranks 1", FaultKind::WrongArguments),
    (b"stats 1", FaultKind::WrongArguments),
    (b"visits x", FaultKind::BadNumber),
    (b"neighbours -1", FaultKind::BadNumber),
    (b"neighbours 4294967296", FaultKind::BadNumber),
    (b"neighbour 1", FaultKind::UnknownCommand),
    // pointers
    (b"get 1", FaultKind::BadNumber),
    (b"get 1.", FaultKind::BadNumber),
    (b"get .2", FaultKind::BadNumber),
    (b"get .", FaultKind::BadNumber),
    (b"get 1.2.3", FaultKind::BadNumber),
    (b"get 1..2", FaultKind::BadNumber),
    (b"get -1.2", FaultKind::BadNumber),
    (b"get 1,2", FaultKind::BadNumber),
    (b"get 4294967296.2", FaultKind::BadNumber),
    (b"get 1.18446744073709551616", FaultKind::BadNumber),
    // searches from a hint
    (b"similar", FaultKind::WrongArguments),
    (b"similar x", FaultKind::BadNumber),
    (b"find-linear 1.2 3", FaultKind::WrongArguments),
    (b"find-linear 1 3 4", FaultKind::BadNumber),
    (b"find-linear 1.2 x 4", FaultKind::BadNumber),
    (
        b"find-linear 1.2 18446744073709551616 4",
        FaultKind::BadNumber,
    ),
    (b"similar-linear 1 2", FaultKind::WrongArguments),
    (b"similar-linear 1.2 2 3", FaultKind::BadNumber),
    (b"similar-linear 1 -2 3", FaultKind::BadNumber),
    (b"similar-with", FaultKind::UnknownCommand),
    // removals and generations
    (b"set 1.2 3", FaultKind::WrongArguments),
    (b"set 1.2 3 4 5", FaultKind::WrongArguments),
    (b"set 1.2 x 4", FaultKind::BadNumber),
    (b"set 1 3 4", FaultKind::BadNumber),
    (b"set 1.2 3 -4", FaultKind::BadNumber),
    (b"rekey 1.2 3", FaultKind::WrongArguments),
    (b"rekey 1 3 4", FaultKind::BadNumber),
    (b"rekey 1.2 3 -4", FaultKind::BadNumber),
    (b"re-key 1.2 3 4", FaultKind::UnknownCommand),
    (b"remove", FaultKind::WrongArguments),
    (b"remove 1", FaultKind::BadNumber),
    (b"remove-index 1.2", FaultKind::BadNumber),
    (b"remove-index", FaultKind::WrongArguments),
    (b"invalidate 1.2 3", FaultKind::WrongArguments),
    (b"invalidate x", FaultKind::BadNumber),
    (b"clear 1", FaultKind::WrongArguments),
    (b"next-generation 1", FaultKind::WrongArguments),
    (b"next", FaultKind::UnknownCommand),
    (b"remove_index 1", FaultKind::UnknownCommand),
    // rebuilds
    (b"compress", FaultKind::WrongArguments),
    (b"compress 0 1", FaultKind::WrongArguments),
    (b"compress 2", FaultKind::BadNumber),
    (b"compress -1", FaultKind::BadNumber),
    (b"canonical", FaultKind::WrongArguments),
    (b"canonical 10", FaultKind::BadNumber),
    (b"canonical true", FaultKind::BadNumber),
    (b"compact 0", FaultKind::UnknownCommand),
    // drains, and the check of the order
    (b"check 1", FaultKind::WrongArguments),
    (b"drain", FaultKind::WrongArguments),
    (b"drain 1 2", FaultKind::WrongArguments),
    (b"drain -1", FaultKind::BadNumber),
    (b"drain 18446744073709551616", FaultKind::BadNumber),
    (b"drained 1", FaultKind::UnknownCommand),
    // a fault ends the script
    (b"insert 1", FaultKind::WrongArguments),
    (b"insert", FaultKind::WrongArguments),
    (b"insert 1 2 3", FaultKind::WrongArguments),
    (b"find", FaultKind::WrongArguments),
    (b"find 1 2", FaultKind::WrongArguments),
    (b"list 1", FaultKind::WrongArguments),
    // the word is checked first, then the number of words, then each argument
    (b"fnd x", FaultKind::UnknownCommand),
    (b"find x y", FaultKind::WrongArguments),
    (b"insert 1 x\n", FaultKind::BadNumber),
    (b"lists", FaultKind::UnknownCommand),
    (b"lis", FaultKind::UnknownCommand),
    (b"List", FaultKind::UnknownCommand),
    // lines: CR before LF, and blank lines and comments, which are counted
    (b"list\r", FaultKind::UnknownCommand),
    (b"list\r\r\n", FaultKind::UnknownCommand),
    (b"list #", FaultKind::WrongArguments),
    // words: spaces and tabs, and no other byte
    (b"find\x0b1", FaultKind::UnknownCommand),
    (b"find\x001", FaultKind::UnknownCommand),
    (b"\xff\n", FaultKind::UnknownCommand),
    (b"list \xff\n", FaultKind::WrongArguments),
    (b"find \xff", FaultKind::BadNumber),
    (b"\xef\xbb\xbflist", FaultKind::UnknownCommand),
    // signs
    (b"insert +5 1", FaultKind::BadNumber),
    (b"insert 5 +1", FaultKind::BadNumber),
    (b"insert 5 -1", FaultKind::BadNumber),
    (b"insert - 1", FaultKind::BadNumber),
    (b"insert --5 1", FaultKind::BadNumber),
    (b"insert 5- 1", FaultKind::BadNumber),
    (b"find 5x", FaultKind::BadNumber),
    (b"find /", FaultKind::BadNumber),
    (b"find :", FaultKind::BadNumber),
    // the range of a key and of a value, and leading zeros
    (b"insert 1 18446744073709551616", FaultKind::BadNumber),
    (
        b"insert 1 340282366920938463463374607431768211456",
        FaultKind::BadNumber,
    ),
    (
        b"find -340282366920938463463374607431768211457",
        FaultKind::BadNumber,
    ),
];

/// Returns whether a script has this answer and this end, and its reader and writer report no failure.
fn is_answered(alloc: Global, script: &[u8], answer: &str, end: ScriptEnd) -> bool {
    let mut output = Vec::new(alloc);
    let mut reader = Watched::new(script);
    let mut writer = Watched::new(&mut output);
    let ended = serve(alloc, &mut reader, &mut writer);
    let is_ended = ended == end && reader.ended() && !reader.failed() && !writer.failed();
    is_ended && output.as_slice() == answer.as_bytes()
}

#[test]
fn a_script_without_a_fault_gets_each_of_its_answers(rt: HostRuntime) {
    for (script, answer) in ANSWERS {
        assert!(rt;
            is_answered(rt.alloc(), script, answer, ScriptEnd::Done),
            "{script:?}"
        );
    }
}

#[test]
fn a_script_is_answered_up_to_its_fault(rt: HostRuntime) {
    for (script, answer, line, kind) in FAULTS {
        let end = ScriptEnd::Fault(*line, *kind);
        assert!(rt; is_answered(rt.alloc(), script, answer, end), "{script:?}");
    }
}

#[test]
fn a_bad_line_is_answered_with_its_kind_of_fault(rt: HostRuntime) {
    for (line, kind) in BAD_LINES {
        let answer = match kind {
            FaultKind::UnknownCommand => "line 1: unknown command\n",
            FaultKind::WrongArguments => "line 1: wrong arguments\n",
            FaultKind::BadNumber => "line 1: bad number\n",
        };
        let end = ScriptEnd::Fault(1, *kind);
        assert!(rt; is_answered(rt.alloc(), line, answer, end), "{line:?}");
    }
}
