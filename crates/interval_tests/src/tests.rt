use crate::offsets::Offset;
use crate::rows::Row;
use interval::edits::{cut, paint, put};
use interval::find;
use interval::joins::join;
use interval::maps::IntervalMap;
use interval::refusals::Refusal;
use interval::stretches::{Stretch, TOP};
use sweep::sweeps;

fn stretch(start: u64, length: u64, value: u64) -> Stretch<Offset> {
    Stretch {
        start,
        length,
        label: Offset { value },
    }
}

// The start of the stretch that is found, or none.
fn find(table: &[Stretch<Offset>], used: usize, address: u64) -> Result<Option<u64>, Refusal> {
    Ok(find::find(table, used, address)?.map(|s| s.start))
}

fn sweep(
    shown: &Stretch<Offset>,
    size: u64,
    table: &mut [Stretch<Offset>],
) -> Result<usize, Refusal> {
    sweeps::sweep(&Row { stretch: shown }, size, table)
}

#[test]
fn finds_at_the_edges(rt: HostRuntime) {
    let table = [
        stretch(0, 1, 0),
        stretch(4, 4, 0),
        stretch(8, 2, 0),
        stretch(TOP - 1, 1, 0),
    ];
    assert_eq!(rt; find(&table, 4, 0), Ok(Some(0)));
    assert_eq!(rt; find(&table, 4, 1), Ok(None));
    assert_eq!(rt; find(&table, 4, 3), Ok(None));
    assert_eq!(rt; find(&table, 4, 4), Ok(Some(4)));
    assert_eq!(rt; find(&table, 4, 7), Ok(Some(4)));
    assert_eq!(rt; find(&table, 4, 8), Ok(Some(8)));
    assert_eq!(rt; find(&table, 4, 10), Ok(None));
    assert_eq!(rt; find(&table, 4, TOP - 1), Ok(Some(TOP - 1)));
    assert_eq!(rt; find(&table, 4, TOP), Ok(None));
    assert_eq!(rt; find(&table, 3, TOP - 1), Ok(None));
    assert_eq!(rt; find(&table, 5, 0), Err(Refusal::Disorder));
}

#[test]
fn puts_until_the_table_is_full(rt: HostRuntime) {
    let mut table = [stretch(0, 0, 0); 2];
    assert_eq!(rt; put(&mut table, 0, stretch(1, 0, 0)), Err(Refusal::Empty));
    assert_eq!(rt; put(&mut table, 0, stretch(1, TOP, 0)), Err(Refusal::High));
    assert_eq!(rt; put(&mut table, 0, stretch(TOP - 1, 1, 0)), Ok(1));
    assert_eq!(rt;
        put(&mut table, 1, stretch(TOP - 1, 1, 0)),
        Err(Refusal::Taken)
    );
    assert_eq!(rt; put(&mut table, 1, stretch(0, 1, 0)), Ok(2));
    assert_eq!(rt; put(&mut table, 2, stretch(1, 1, 0)), Err(Refusal::Short));
    assert_eq!(rt;
        put(&mut table, 3, stretch(1, 1, 0)),
        Err(Refusal::Disorder)
    );
    assert_eq!(rt; table[0].start, 0);
    assert_eq!(rt; table[1].start, TOP - 1);
}

#[test]
fn cuts_the_middle_out(rt: HostRuntime) {
    let mut full = [stretch(0, 16, 0xfff)];
    assert_eq!(rt; cut(&mut full, 1, 4, 4), Err(Refusal::Short));
    assert_eq!(rt; full[0].length, 16);
    let mut table = [stretch(0, 16, 0xfff), stretch(0, 0, 0)];
    assert_eq!(rt; cut(&mut table, 1, 4, 4), Ok(2));
    assert_eq!(rt; table[0].length, 4);
    assert_eq!(rt; table[1].start, 8);
    assert_eq!(rt; table[1].length, 8);
    assert_eq!(rt; table[1].label.value, 0x1007);
}

#[test]
fn joins_three(rt: HostRuntime) {
    let mut table = [stretch(0, 16, 7), stretch(0, 0, 0), stretch(0, 0, 0)];
    assert_eq!(rt; paint(&mut table, 1, stretch(4, 4, 0)), Ok(3));
    assert_eq!(rt; join(&mut table, 3), Ok(3));
    assert_eq!(rt; paint(&mut table, 3, stretch(4, 4, 11)), Ok(3));
    assert_eq!(rt; join(&mut table, 3), Ok(1));
    assert_eq!(rt; table[0].start, 0);
    assert_eq!(rt; table[0].length, 16);
    assert_eq!(rt; table[0].label.value, 7);
}

#[test]
fn sweeps_what_is_shown(rt: HostRuntime) {
    let mut table = [stretch(0, 0, 0)];
    assert_eq!(rt; sweep(&stretch(3, 6, 5), 8, &mut table), Ok(1));
    assert_eq!(rt; table[0].start, 3);
    assert_eq!(rt; table[0].length, 5);
    assert_eq!(rt; table[0].label.value, 5);
    assert_eq!(rt;
        sweep(&stretch(3, 6, 5), TOP + 1, &mut table),
        Err(Refusal::High)
    );
    let mut none: [Stretch<Offset>; 0] = [];
    assert_eq!(rt; sweep(&stretch(3, 6, 5), 3, &mut none), Ok(0));
    assert_eq!(rt; sweep(&stretch(3, 6, 5), 4, &mut none), Err(Refusal::Short));
}

#[test]
fn a_map_holds_its_own_records(rt: HostRuntime) {
    let mut map: IntervalMap<Offset, 2> = IntervalMap::new(stretch(0, 0, 0));
    assert_eq!(rt; map.put(stretch(0, 16, 7)), Ok(()));
    assert_eq!(rt; map.put(stretch(15, 2, 0)), Err(Refusal::Taken));
    assert_eq!(rt; map.paint(stretch(4, 4, 0)), Err(Refusal::Short));
    assert_eq!(rt; map.cut(0, 4), Ok(()));
    assert_eq!(rt; map.put(stretch(0, 4, 7)), Ok(()));
    assert_eq!(rt; map.len(), 2);
    map.join();
    assert_eq!(rt; map.len(), 1);
    assert_eq!(rt; map.stretches()[0].length, 16);
    assert!(rt; map.find(15).is_some());
    assert!(rt; map.find(16).is_none());
    let full = [stretch(0, 1, 0), stretch(0, 1, 0)];
    assert!(rt; IntervalMap::from_table(full, 2).is_err());
    assert!(rt; IntervalMap::from_table(full, 1).is_ok());
}

#[test]
fn a_map_gives_up_a_stretch(rt: HostRuntime) {
    let mut map: IntervalMap<Offset, 2> = IntervalMap::new(stretch(0, 0, 0));
    assert_eq!(rt; map.put(stretch(0, 4, 7)), Ok(()));
    assert_eq!(rt; map.put(stretch(8, 4, 9)), Ok(()));
    map.take_out(2);
    assert_eq!(rt; map.len(), 2);
    map.take_out(0);
    assert_eq!(rt; map.len(), 1);
    assert_eq!(rt; map.stretches()[0].start, 8);
}
