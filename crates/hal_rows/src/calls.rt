// Scripts of calls over lists in memory, each with its replies.
ghost use Rattle.std.specs.Prelude.{◌≡◌, [], IfOk, IsTrue};
ghost use Rattle.hal_schema.specs.Forest.{is_forest};

use forest_laws::empty_is_forest;
use hal_base::{Bytes, List, Memory};
use hal_desk::{ListTaker, kdb, run_list};
use hal_disk::{MemSite, MemSource};
use hal_schema::{Row, Schema};
use script_runs::{LineTaker, run_script};
use std::alloc::Global;
use std::test::Fail;

/// A script, and what is said to it.
type Case = (&'static str, &'static str);

fn source_of(alloc: Global, script: &str) -> Result<MemSource, Memory> {
    Ok(MemSource::new(
        Bytes::from_slice(alloc, script.as_bytes())?,
        4096,
        List::new(alloc),
    ))
}

fn site(alloc: Global) -> MemSite {
    MemSite::new(alloc, Bytes::new(alloc), List::new(alloc))
}

/// What is said to a script over these rows, and the rows that it leaves.
fn answered(
    alloc: Global,
    schema: &Schema,
    rows: List<Row>,
    script: &str,
) -> Result<(Bytes, List<Row>), Memory>
    requires forest { IsTrue (is_forest schema.now rows) }
    requires no_index { schema.now.indexes ≡ [] }
    ensures { IfOk result (λ left. IsTrue (is_forest schema.now left.1)) }
{
    let mut source = source_of(alloc, script)?;
    let mut taker = ListTaker::new(alloc, schema, rows, site(alloc));
    let _ = run_script(alloc, &mut source, &mut taker);
    taker.has_a_forest();
    let Ok(rows) = taker.rows() else {
        return Err(Memory);
    };
    let site = taker.into_site();
    Ok((Bytes::from_slice(alloc, site.said())?, rows))
}

/// The first of these scripts, one after another over one list of KDB, to which something else is said.
fn wrong(alloc: Global, cases: &[Case]) -> Result<Option<usize>, Memory> {
    empty_is_forest();
    let schema = kdb(alloc)?;
    let mut rows = List::new(alloc);
    for (place, (script, said)) in cases.iter().enumerate() {
        let (text, left) = answered(alloc, &schema, rows, script)?;
        if text.as_slice() != said.as_bytes() {
            return Ok(Some(place));
        }
        rows = left;
    }
    Ok(None)
}

const TWO_PARTITIONS: Case = (
    "PCB S A\nS ISRT R : '500bb'\nS ISRT R : '99:zz'\nS GU R(K='99:')\nS GU R(K>'99:')\nS ISRT R : '500cc'\n",
    "1 --\n2 -- R '500'\n3 FM\n4 FM\n5 GE\n6 II\n",
);

const NO_ROWS: Case = ("PCB S G\nS GN\nS GN\nS GU\n", "1 --\n2 GB\n3 GB\n4 GE\n");

const REFUSALS: Case = (
    "PCB S G\nPCB S G\nS ISRT R : '001aa'\nS FOO\nS GU R(K='0011')\nS GU R(Z='1')\nS GU C R\nS GU R(K='001'\nT GU\nS GU R : 'x'\nPCB T Q\nPCB T G NOX\nS GU R(K=X'30')\n",
    "1 --\n2 +S 2\n3 AM\n4 AD\n5 AJ\n6 AK\n7 AC\n8 +B 3\n9 +S 5\n10 +L\n11 +S 1\n12 +S 4\n13 AJ\n",
);

const FIRST_AND_LAST: Case = (
    "PCB S A\nS ISRT R : '001aa'\nS ISRT R(K='001') C : '01xx'\nS ISRT R(K='001') C : '01yy'\nS ISRT R(K='001') U : '01pp'\nS ISRT R(K='001') U : '01qq'\nS GU R(K='001')\nS GN C\nS GN C\nS GN U\nS GN U\n",
    "1 --\n2 -- R '001'\n3 -- C '00101'\n4 -- C '00101'\n5 -- U '00101'\n6 -- U '00101'\n7 -- R '001' '001aa'\n8 -- C '00101' '01xx'\n9 -- C '00101' '01yy'\n10 -- U '00101' '01qq'\n11 -- U '00101' '01pp'\n",
);

const ALONG_THE_LIST: Case = (
    "PCB S A\nS ISRT R(K='001') C(CK='01') G : 'g1'\nS ISRT R : '002bb'\nS GU\nS GN\nS GN\nS GN\nS GN\nS GN\nS GN\nS GN\nS GN\n",
    "1 --\n2 -- G '00101'\n3 -- R '002'\n4 -- R '001' '001aa'\n5 -- C '00101' '01xx'\n6 -- G '00101' 'g1'\n7 GA C '00101' '01yy'\n8 GK U '00101' '01qq'\n9 -- U '00101' '01pp'\n10 GA R '002' '002bb'\n11 GB\n12 -- R '001' '001aa'\n",
);

const WITHIN_A_PARENT: Case = (
    "PCB S G\nS GNP\nS GU R(K='001') C(CK='01')\nS GNP\nS GNP\n",
    "1 --\n2 GP\n3 -- C '00101' '01xx'\n4 -- G '00101' 'g1'\n5 GE\n",
);

const TWO_HOLDS: Case = (
    "PCB S A\nPCB T A\nS GHU R(K='002')\nS REPL : '003bb'\nS REPL : '002cc'\nS GHU R(K='002')\nT GHU R(K='002')\nT REPL : '002dd'\nS REPL : '002ee'\n",
    "1 --\n2 --\n3 -- R '002' '002bb'\n4 DA\n5 DJ\n6 -- R '002' '002bb'\n7 -- R '002' '002bb'\n8 --\n9 DJ\n",
);

const A_PARENT_IS_DELETED: Case = (
    "PCB S A\nPCB T G\nT GU R(K='001') C(CK='01') G\nS GHU R(K='001') C(CK='01')\nS DLET\nT GNP\nT GN\n",
    "1 --\n2 --\n3 -- G '00101' 'g1'\n4 -- C '00101' '01xx'\n5 --\n6 GP\n7 -- C '00101' '01yy'\n",
);

const OTHER_LINES: Case = (
    "REORG QUERY P1\nREORG STEP P1 0\nS\tGU\n* note\n\nS GU R(K='0\nPCB S G\n  s gu r ( k eq '001' )\n",
    "1 +B 9\n2 +B 5\n3 +B 2\n6 +B 4\n7 --\n8 GE\n",
);

#[test]
fn roots_and_partitions(rt: HostRuntime) -> Result<(), Fail> {
    assert_eq!(rt; wrong(rt.alloc(), [TWO_PARTITIONS].as_slice())?, None);
    Ok(())
}

#[test]
fn an_empty_list(rt: HostRuntime) -> Result<(), Fail> {
    assert_eq!(rt; wrong(rt.alloc(), [NO_ROWS].as_slice())?, None);
    Ok(())
}

#[test]
fn refusals_in_their_order(rt: HostRuntime) -> Result<(), Fail> {
    assert_eq!(rt;
        wrong(rt.alloc(), [REFUSALS, OTHER_LINES].as_slice())?,
        None
    );
    Ok(())
}

#[test]
fn scripts_one_after_another(rt: HostRuntime) -> Result<(), Fail> {
    let cases = [
        FIRST_AND_LAST,
        ALONG_THE_LIST,
        WITHIN_A_PARENT,
        TWO_HOLDS,
        A_PARENT_IS_DELETED,
    ];
    assert_eq!(rt; wrong(rt.alloc(), cases.as_slice())?, None);
    Ok(())
}

/// What `run_list` says over the rows that a script left.
fn said_behind(alloc: Global, first: &str, second: &str) -> Result<(u8, Bytes), Memory> {
    empty_is_forest();
    let schema = kdb(alloc)?;
    let (_, rows) = answered(alloc, &schema, List::new(alloc), first)?;
    let mut source = source_of(alloc, second)?;
    let ended = run_list(alloc, &schema, rows, &mut source, site(alloc));
    Ok((ended.status, Bytes::from_slice(alloc, ended.site.said())?))
}

#[test]
fn a_list_begins_with_rows(rt: HostRuntime) -> Result<(), Fail> {
    let first = "PCB S A\nS ISRT R : '001aa'\nS ISRT R C : '01xx'\nS ISRT R C G : 'g1'\n";
    let (status, said) = said_behind(rt.alloc(), first, WITHIN_A_PARENT.0)?;
    assert_eq!(rt; status, 0);
    assert_eq!(rt; said.as_slice(), WITHIN_A_PARENT.1.as_bytes());
    Ok(())
}

/// Opens so many sessions, and one more.
fn sessions(alloc: Global, count: u32) -> Result<Bytes, Memory> {
    let mut script = Bytes::new(alloc);
    for number in 0..count {
        script.append(b"PCB S")?;
        script.append(number.to_string(alloc)?.as_bytes())?;
        script.append(b" G\n")?;
    }
    Ok(script)
}

#[test]
fn a_script_has_64_sessions(rt: HostRuntime) -> Result<(), Fail> {
    let alloc = rt.alloc();
    let script = sessions(alloc, 65)?;
    let outcome = crate::called(alloc, script.as_slice(), crate::SMOOTH)?;
    assert!(rt; outcome.said.as_slice().ends_with(b"\n64 --\n65 +S 3\n"));
    Ok(())
}
