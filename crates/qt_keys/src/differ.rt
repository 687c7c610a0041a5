// Whether some values are all different.
ghost use Rattle.std.specs.Prelude.{◌≡◌};
ghost use Rattle.std.specs.Ordering.{eq_by_cmp};
ghost use Rattle.std.specs.List.Sorted.{IsSorted};
ghost use Rattle.qt_keys.specs.Table.{all_differ};

/// Whether no two of these are equal. It sorts them, so that many take little time.
pub fn differ<T: Ord + Drop>(mut values: Vec<T>) -> bool
    ensures { result ≡ all_differ (eq_by_cmp T.cmp) values.items }
{
    values.sort_unstable();
    neighbours_differ(values.as_slice())
}

// Whether no two that stand beside each other are equal, of some that are sorted.
fn neighbours_differ<T: Ord>(values: &[T]) -> bool
    requires { IsSorted T.cmp values.now }
    ensures { result ≡ all_differ (eq_by_cmp T.cmp) values.now }
{
    for k in 1..values.len() {
        if values[k - 1].cmp(&values[k]).is_eq() {
            return false;
        }
    }
    true
}
