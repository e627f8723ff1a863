// The examples of docs/CALLS.md, each with what it says.
use crate::{SMOOTH, called};
use std::test::Fail;

/// A script, and what is said to it.
type Example = (&'static str, &'static str);

const ALONG_THE_LIST: Example = (
    "PCB S A\nS ISRT R : '001aa'\nS ISRT R(K='001') C : '01xx'\nS ISRT R(K='001') C : '01yy'\nS ISRT R(K='001') U : '01pp'\nS ISRT R(K='001') U : '01qq'\nS ISRT R(K='001') C(CK='01') G : 'g1'\nS ISRT R : '002bb'\nS GU\nS GN\nS GN\nS GN\nS GN\nS GN\nS GN\nS GN\n* the position is at the front again\nS GN R\nS GN U\nS GU R(K='001') U\nS GNP\nS GNP\n",
    "1 --\n2 -- R '001'\n3 -- C '00101'\n4 -- C '00101'\n5 -- U '00101'\n6 -- U '00101'\n7 -- G '00101'\n8 -- R '002'\n9 -- R '001' '001aa'\n10 -- C '00101' '01xx'\n11 -- G '00101' 'g1'\n12 GA C '00101' '01yy'\n13 GK U '00101' '01qq'\n14 -- U '00101' '01pp'\n15 GA R '002' '002bb'\n16 GB\n18 -- R '001' '001aa'\n19 -- U '00101' '01qq'\n20 -- U '00101' '01qq'\n21 GE\n22 GE\n",
);

const CODES_AND_CLAUSES: Example = (
    "PCB S A\nS ISRT R : '001aa'\nS ISRT C : '01xx'\nS ISRT C : '02yy'\nS ISRT R : '002bb'\nS ISRT C : '03zz'\nS GU R*D(K='001') C(CK='02')\nS GU R(K='001') C*L\nS GU R(K>'001')\nS GU R(V='aa'|V='bb'&K='002')\nS GN R(V='aa'|V='bb'&K='002')\nS GN R(V='aa'|V='bb'&K='002')\nS GU R(K=X'303032')\n",
    "1 --\n2 -- R '001'\n3 -- C '00101'\n4 -- C '00102'\n5 -- R '002'\n6 -- C '00203'\n7 -- C '00102' '001aa02yy'\n8 -- C '00102' '02yy'\n9 -- R '002' '002bb'\n10 -- R '001' '001aa'\n11 -- R '002' '002bb'\n12 GE\n13 -- R '002' '002bb'\n",
);

const HOLDS: Example = (
    "PCB S A\nPCB T A\nS ISRT R : '001aa'\nS ISRT C : '01xx'\nS ISRT R : '001cc'\nS DLET\nS GHU R(K='001')\nS REPL : '009aa'\nS GHU R(K='001')\nT GHU R(K='001') C\nS REPL : '001bb'\nS REPL : '001cc'\nS GHU R(K='001')\nS DLET\nT GNP\nT REPL : '01yy'\nT GN\n",
    "1 --\n2 --\n3 -- R '001'\n4 -- C '00101'\n5 II\n6 DJ\n7 -- R '001' '001aa'\n8 DA\n9 -- R '001' '001aa'\n10 -- C '00101' '01xx'\n11 --\n12 DJ\n13 -- R '001' '001bb'\n14 --\n15 GP\n16 DJ\n17 GB\n",
);

const REFUSED: Example = (
    "PCB S G\nPCB S G\nPCB T Q\nPCB T G NOX\nT GU\nS FOO\nS ISRT R : '001aa'\nS GU R(K='0011')\nS GU R(Z='1')\nS GU C R\nS GU R : 'x'\nS GNP\nS GU R(K='99:')\nPCB I A\nI ISRT : '001aa'\nI ISRT R : '001'\nI ISRT C : '01xx'\nS GU R(K='001'\nS GU R(K='0\nREORG STEP P1 0\nREORG QUERY P1\n",
    "1 --\n2 +S 2\n3 +S 1\n4 +S 4\n5 +S 5\n6 AD\n7 AM\n8 AJ\n9 AK\n10 AC\n11 +L\n12 GP\n13 FM\n14 --\n15 AH\n16 -- R '001'\n17 -- C '00101'\n18 +B 3\n19 +B 4\n20 +B 5\n21 +B 9\n",
);

#[test]
fn examples_say_what_the_page_says(rt: HostRuntime) -> Result<(), Fail> {
    let alloc = rt.alloc();
    for (script, said) in [ALONG_THE_LIST, CODES_AND_CLAUSES, HOLDS, REFUSED] {
        let outcome = called(alloc, script.as_bytes(), SMOOTH)?;
        assert_eq!(rt; outcome.status, 0);
        assert_eq!(rt; outcome.said.as_slice(), said.as_bytes(), "{script}");
    }
    Ok(())
}
