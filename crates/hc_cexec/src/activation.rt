//! Bodies that are run.

ghost use Rattle.std.specs.Prelude.{◌≡◌, slice_get, option_copied};
ghost use Rattle.hc_cexec.specs.Goes.{changed, goes_on, takes_value, starts};

use hc_ccode::Entry;
use hc_cprim::Numbers;
use std::marker::Model;

/// A body of a thread. A function has one in each thread, since no function calls itself, by whatever way.
#[derive(Drop)]
pub(crate) struct Activation {
    /// Parameters and further locals.
    pub(crate) values: Numbers,
    /// What is still to do, by its place in the code.
    pub(crate) place: usize,
    /// The body behind whose call it goes on, if one called it.
    pub(crate) caller: Option<usize>,
    /// The caller's local that takes the result.
    pub(crate) result: Option<usize>,
    /// Whether there has to be a result.
    pub(crate) gives: bool,
}

impl Activation {
    /// A local may take a value.
    fn store(&mut self, target: Option<usize>, value: i64)
        ensures { self.new ≡ takes_value target value self.old }
    {
        if let Some(local) = target {
            self.values.set(local, value);
        }
    }

    /// Goes on at a place, where a local may take a value.
    fn go_on(&mut self, target: Option<usize>, value: i64, place: usize)
        ensures { self.new ≡ goes_on target value place self.old }
    {
        self.store(target, value);
        self.place = place;
    }

    /// Stands at its start, called from a body, with the values of its arguments.
    fn start(&mut self, entry: Entry, arguments: &[i64], caller: usize, target: Option<usize>)
        ensures { self.new ≡ starts entry arguments.now caller target self.old }
    {
        self.values.load(arguments, entry.params);
        self.place = entry.start;
        self.caller = Some(caller);
        self.result = target;
        self.gives = entry.gives;
    }
}

/// The bodies of a thread, by number.
#[derive(Drop)]
pub(crate) struct Activations {
    activations: Vec<Activation>,
}

impl Model for Activations {
    ghost use Rattle.std.specs.Prelude.{List};
    ghost use Rattle.hc_cexec.specs.declared.activation.Activation.{Activation};

    ghost Value = { List Activation };

    ghost view = { λ a. a.activations.items };
}

impl Activations {
    /// These bodies.
    pub(crate) fn new(bodies: Vec<Activation>) -> Activations
        ensures { result ≡ bodies.items }
    {
        Activations {
            activations: bodies,
        }
    }

    /// The body of a number, if there is one.
    pub(crate) fn get(&self, number: usize) -> Option<&Activation>
        ensures { option_copied result ≡ slice_get self.now number }
    {
        self.activations.get(number)
    }

    /// The body of this number goes on at a place, where a local may take a value.
    pub(crate) fn go_on(&mut self, number: usize, target: Option<usize>, value: i64, place: usize)
        ensures { self.new ≡ changed self.old number (goes_on target value place) }
    {
        if number < self.activations.len() {
            self.activations[number].go_on(target, value, place);
        }
    }

    /// A local of this body may take a value.
    pub(crate) fn store(&mut self, number: usize, target: Option<usize>, value: i64)
        ensures { self.new ≡ changed self.old number (takes_value target value) }
    {
        if number < self.activations.len() {
            self.activations[number].store(target, value);
        }
    }

    /// The body of this number stands at its start.
    pub(crate) fn start(
        &mut self,
        number: usize,
        entry: Entry,
        arguments: &[i64],
        caller: usize,
        target: Option<usize>,
    )
        ensures { self.new ≡ changed self.old number (starts entry arguments.now caller target) }
    {
        if number < self.activations.len() {
            self.activations[number].start(entry, arguments, caller, target);
        }
    }
}
