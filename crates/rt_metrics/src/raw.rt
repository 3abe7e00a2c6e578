// The markers of the four kinds.
ghost use Rattle.rt_metrics.specs.declared.kind.Kind.{Kind};

use crate::kind::Kind;
use crate::metric::Metric;
use std::marker::PhantomData;

/// The kind of a counter: a number of 64 bits that rises from 0, wrapping.
#[derive(Debug, Drop)]
pub struct Counter;

/// The kind of a gauge: a signed number of 64 bits, from 0, wrapping.
#[derive(Debug, Drop)]
pub struct Gauge;

/// The kind of a family: one metric `M` for each set of labels.
#[derive(Debug, Drop)]
pub struct Family<M> {
    member: PhantomData<M>,
}

impl Metric for Counter {
    ghost use Rattle.rt_metrics.specs.declared.kind.Kind.TheVariants.{Counter as of_counter};

    ghost kind = { of_counter };

    fn kind() -> Kind {
        Kind::Counter
    }
}

impl Metric for Gauge {
    ghost use Rattle.rt_metrics.specs.declared.kind.Kind.TheVariants.{Gauge as of_gauge};

    ghost kind = { of_gauge };

    fn kind() -> Kind {
        Kind::Gauge
    }
}

impl Metric for Family<Counter> {
    ghost use Rattle.rt_metrics.specs.declared.kind.Kind.TheVariants.{CounterFamily};

    ghost kind = { CounterFamily };

    fn kind() -> Kind {
        Kind::CounterFamily
    }
}

impl Metric for Family<Gauge> {
    ghost use Rattle.rt_metrics.specs.declared.kind.Kind.TheVariants.{GaugeFamily};

    ghost kind = { GaugeFamily };

    fn kind() -> Kind {
        Kind::GaugeFamily
    }
}
