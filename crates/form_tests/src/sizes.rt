//! The sizes of forms.

use crate::edits::Edit;
use crate::forms::{Example, anf, tail_of};
use block_forms::Form;
use call_forms::{AnfForm, TailForm};

#[test]
fn a_form_has_the_size_of_its_list(rt: HostRuntime) {
    for (example, blocks, labels) in [(Example::Sign, 5, 4), (Example::Loop, 6, 2)] {
        let anf = anf(&rt, example, &mut Edit::none());
        let tail = tail_of(&rt, example, &mut Edit::none());
        assert_eq!(rt; AnfForm { anf: &anf }.size(), blocks);
        let form = TailForm {
            anf: &anf,
            tail: &tail,
        };
        assert_eq!(rt; form.size(), labels);
    }
}
