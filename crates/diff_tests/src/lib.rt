// Examples of change lists.
#![tactic(auto)]

#[cfg(test)]
mod tests {
    use diff::change_lists::change_list;
    use diff::counts::Counts;
    use interval::ordered::Ordered;
    use interval::stretches::Stretch;
    use model::changes::Change;
    use model::faults::Fault;
    use model::kinds::Kind;
    use model::places::Place;
    use model::ranges::Range;

    fn range(start: u64, length: u64, writes: bool) -> Range {
        let label = Place {
            leaf: 1,
            device: 0,
            offset: 0,
            kind: Kind::Ram,
            writes,
        };
        Stretch {
            start,
            length,
            label,
        }
    }

    // The change list between two maps, unless one is out of order.
    fn between(old: &[Range], new: &[Range], list: &mut [Change]) -> Option<Result<Counts, Fault>> {
        let old = Ordered::check(old, old.len()).ok()?;
        let new = Ordered::check(new, new.len()).ok()?;
        Some(change_list(&old, &new, list))
    }

    fn counts(removed: usize, added: usize) -> Option<Result<Counts, Fault>> {
        Some(Ok(Counts { removed, added }))
    }

    #[test]
    fn equal_maps_give_no_entries(rt: HostRuntime) {
        let map = [range(0, 16, true), range(32, 16, false)];
        let mut list = [Change::Removal(range(0, 1, true)); 1];
        assert_eq!(rt; between(&map, &map, &mut list), counts(0, 0));
    }

    #[test]
    fn a_range_that_changes_goes_and_comes(rt: HostRuntime) {
        let old = [range(0, 16, true), range(16, 16, true), range(32, 16, true)];
        let new = [range(0, 8, true), range(16, 16, true), range(32, 16, false)];
        let mut list = [Change::Removal(range(0, 1, true)); 5];
        assert_eq!(rt; between(&old, &new, &mut list), counts(2, 2));
        assert_eq!(rt; list[0], Change::Removal(range(0, 16, true)));
        assert_eq!(rt; list[1], Change::Removal(range(32, 16, true)));
        assert_eq!(rt; list[2], Change::Addition(range(0, 8, true)));
        assert_eq!(rt; list[3], Change::Addition(range(32, 16, false)));
        assert_eq!(rt; list[4], Change::Removal(range(0, 1, true)));
    }

    #[test]
    fn a_list_fits_or_stays(rt: HostRuntime) {
        let old = [range(0, 16, true)];
        let new = [range(8, 16, true)];
        let mut short = [Change::Removal(range(0, 1, true)); 1];
        assert_eq!(rt;
            between(&old, &new, &mut short),
            Some(Err(Fault::ListShort))
        );
        assert_eq!(rt; short[0], Change::Removal(range(0, 1, true)));
        let mut exact = [Change::Removal(range(0, 1, true)); 2];
        assert_eq!(rt; between(&old, &new, &mut exact), counts(1, 1));
    }
}
